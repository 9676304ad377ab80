// What C and Rust call of exports32_numbers: an export for each of its functions, with the same contract, and no logic of its
// own. C has each function by its name, so that none is an instance of a generic one.
#![tactic(auto)]

ghost use Rattle.std.specs.Prelude.{◌≡◌};
ghost use Rattle.util_defs.specs.Power.{power_of_two};
ghost use Rattle.util_defs.specs.Helpers.{padding_for, round_down_for, max_for, min_for};
ghost use Rattle.rounding.specs.Word.{new_for, components_for, align_for};
ghost use Rattle.trailing_defs.specs.Calls.{size_offset_for, max_trailing_for, padding_for_elems, advance_for, same_for};
ghost use Rattle.trailing_defs.specs.Sized.{size_given};
ghost use Rattle.exports32_numbers.specs.Numbers.{number_out32, size_out32, decision_out32, components_out32};
ghost use Rattle.exports32_numbers.specs.Numbers.{trailing_in32, trailing_out32};

use exports32_numbers::{Components32, Number32, Trailing32, TrailingAnswer32};

// Whether align is a power of two.
#[unsafe(no_mangle)]
pub extern "C" fn lukaripe32_is_power_of_two(align: u32) -> bool
    ensures { result ≡ power_of_two 32 align }
{
    exports32_numbers::lukaripe32_is_power_of_two(align)
}

// The bytes that pad len to a multiple of align.
#[unsafe(no_mangle)]
pub extern "C" fn lukaripe32_padding_needed_for(len: u32, align: u32) -> Number32
    ensures { result ≡ number_out32 (padding_for 32 len align) }
{
    exports32_numbers::lukaripe32_padding_needed_for(len, align)
}

// The greatest multiple of align that is at most n.
#[unsafe(no_mangle)]
pub extern "C" fn lukaripe32_round_down_to_next_multiple_of_alignment(
    n: u32,
    align: u32,
) -> Number32
    ensures { result ≡ number_out32 (round_down_for 32 n align) }
{
    exports32_numbers::lukaripe32_round_down_to_next_multiple_of_alignment(n, align)
}

// The larger of two alignments.
#[unsafe(no_mangle)]
pub extern "C" fn lukaripe32_max(a: u32, b: u32) -> Number32
    ensures { result ≡ number_out32 (max_for 32 a b) }
{
    exports32_numbers::lukaripe32_max(a, b)
}

// The smaller of two alignments.
#[unsafe(no_mangle)]
pub extern "C" fn lukaripe32_min(a: u32, b: u32) -> Number32
    ensures { result ≡ number_out32 (min_for 32 a b) }
{
    exports32_numbers::lukaripe32_min(a, b)
}

// The rounding word of an alignment and a phase.
#[unsafe(no_mangle)]
pub extern "C" fn lukaripe32_rounding_new(align: u32, phase: u32) -> Number32
    ensures { result ≡ number_out32 (new_for 32 align phase) }
{
    exports32_numbers::lukaripe32_rounding_new(align, phase)
}

// The alignment and the phase of a rounding word.
#[unsafe(no_mangle)]
pub extern "C" fn lukaripe32_rounding_components(word: u32) -> Components32
    ensures { result ≡ components_out32 (components_for 32 word) }
{
    exports32_numbers::lukaripe32_rounding_components(word)
}

// The alignment of a rounding word.
#[unsafe(no_mangle)]
pub extern "C" fn lukaripe32_rounding_align(word: u32) -> Number32
    ensures { result ≡ number_out32 (align_for 32 word) }
{
    exports32_numbers::lukaripe32_rounding_align(word)
}

// The size offset of a trailing layout.
#[unsafe(no_mangle)]
pub extern "C" fn lukaripe32_size_offset(layout: Trailing32) -> Number32
    ensures { result ≡ number_out32 (size_offset_for 32 (trailing_in32 layout)) }
{
    exports32_numbers::lukaripe32_size_offset(layout)
}

// The greatest number of trailing bytes whose size is at most available_bytes.
#[unsafe(no_mangle)]
pub extern "C" fn lukaripe32_max_trailing_bytes(
    layout: Trailing32,
    available_bytes: u32,
) -> Number32
    ensures { result ≡ number_out32 (max_trailing_for 32 (trailing_in32 layout) available_bytes) }
{
    exports32_numbers::lukaripe32_max_trailing_bytes(layout, available_bytes)
}

// The padding after elems elements, modulo 2^32.
#[unsafe(no_mangle)]
pub extern "C" fn lukaripe32_padding_for_elems(layout: Trailing32, elems: u32) -> Number32
    ensures { result ≡ number_out32 (padding_for_elems 32 (trailing_in32 layout) elems) }
{
    exports32_numbers::lukaripe32_padding_for_elems(layout, elems)
}

// The size at elems elements; beside 15 the value is the greatest count that has a size.
#[unsafe(no_mangle)]
pub extern "C" fn lukaripe32_size_for_elems(layout: Trailing32, elems: u32) -> Number32
    ensures { result ≡ size_out32 (size_given 32 (trailing_in32 layout) elems) }
{
    exports32_numbers::lukaripe32_size_for_elems(layout, elems)
}

// The layout advanced by bytes, with another element size.
#[unsafe(no_mangle)]
pub extern "C" fn lukaripe32_advance(
    layout: Trailing32,
    bytes: u32,
    elem_size: u32,
) -> TrailingAnswer32
    ensures { result ≡ trailing_out32 (advance_for 32 (trailing_in32 layout) bytes elem_size) }
{
    exports32_numbers::lukaripe32_advance(layout, bytes, elem_size)
}

// Whether two layouts are found to have the same size at every count.
#[unsafe(no_mangle)]
pub extern "C" fn lukaripe32_has_same_size_sequence(
    layout: Trailing32,
    other: Trailing32,
) -> Number32
    ensures { result ≡ decision_out32 (same_for 32 (trailing_in32 layout) (trailing_in32 other)) }
{
    exports32_numbers::lukaripe32_has_same_size_sequence(layout, other)
}
