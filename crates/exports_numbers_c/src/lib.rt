// What C and Rust call of exports_numbers: an export for each of its functions, with the same contract, and no logic of its own.
#![tactic(auto)]

ghost use Rattle.std.specs.Prelude.{◌≡◌};
ghost use Rattle.util_defs.specs.Power.{power_of_two};
ghost use Rattle.util_defs.specs.Helpers.{padding_for, round_down_for, max_for, min_for};
ghost use Rattle.rounding.specs.Word.{new_for, components_for, align_for};
ghost use Rattle.trailing_defs.specs.Calls.{size_offset_for, max_trailing_for, padding_for_elems, advance_for, same_for};
ghost use Rattle.trailing_defs.specs.Sized.{size_given};
ghost use Rattle.exports_numbers.specs.Numbers.{number_out, size_out, decision_out, components_out};
ghost use Rattle.exports_numbers.specs.Numbers.{trailing_in, trailing_out};

use exports_numbers::{Components, Number, Trailing, TrailingAnswer};

// Whether align is a power of two.
#[unsafe(no_mangle)]
pub extern "C" fn lukaripe_is_power_of_two(align: u64) -> bool
    ensures { result ≡ power_of_two 64 align }
{
    exports_numbers::lukaripe_is_power_of_two(align)
}

// The bytes that pad len to a multiple of align.
#[unsafe(no_mangle)]
pub extern "C" fn lukaripe_padding_needed_for(len: u64, align: u64) -> Number
    ensures { result ≡ number_out (padding_for 64 len align) }
{
    exports_numbers::lukaripe_padding_needed_for(len, align)
}

// The greatest multiple of align that is at most n.
#[unsafe(no_mangle)]
pub extern "C" fn lukaripe_round_down_to_next_multiple_of_alignment(n: u64, align: u64) -> Number
    ensures { result ≡ number_out (round_down_for 64 n align) }
{
    exports_numbers::lukaripe_round_down_to_next_multiple_of_alignment(n, align)
}

// The larger of two alignments.
#[unsafe(no_mangle)]
pub extern "C" fn lukaripe_max(a: u64, b: u64) -> Number
    ensures { result ≡ number_out (max_for 64 a b) }
{
    exports_numbers::lukaripe_max(a, b)
}

// The smaller of two alignments.
#[unsafe(no_mangle)]
pub extern "C" fn lukaripe_min(a: u64, b: u64) -> Number
    ensures { result ≡ number_out (min_for 64 a b) }
{
    exports_numbers::lukaripe_min(a, b)
}

// The rounding word of an alignment and a phase.
#[unsafe(no_mangle)]
pub extern "C" fn lukaripe_rounding_new(align: u64, phase: u64) -> Number
    ensures { result ≡ number_out (new_for 64 align phase) }
{
    exports_numbers::lukaripe_rounding_new(align, phase)
}

// The alignment and the phase of a rounding word.
#[unsafe(no_mangle)]
pub extern "C" fn lukaripe_rounding_components(word: u64) -> Components
    ensures { result ≡ components_out (components_for 64 word) }
{
    exports_numbers::lukaripe_rounding_components(word)
}

// The alignment of a rounding word.
#[unsafe(no_mangle)]
pub extern "C" fn lukaripe_rounding_align(word: u64) -> Number
    ensures { result ≡ number_out (align_for 64 word) }
{
    exports_numbers::lukaripe_rounding_align(word)
}

// The size offset of a trailing layout.
#[unsafe(no_mangle)]
pub extern "C" fn lukaripe_size_offset(layout: Trailing) -> Number
    ensures { result ≡ number_out (size_offset_for 64 (trailing_in layout)) }
{
    exports_numbers::lukaripe_size_offset(layout)
}

// The greatest number of trailing bytes whose size is at most available_bytes.
#[unsafe(no_mangle)]
pub extern "C" fn lukaripe_max_trailing_bytes(layout: Trailing, available_bytes: u64) -> Number
    ensures { result ≡ number_out (max_trailing_for 64 (trailing_in layout) available_bytes) }
{
    exports_numbers::lukaripe_max_trailing_bytes(layout, available_bytes)
}

// The padding after elems elements, modulo 2^64.
#[unsafe(no_mangle)]
pub extern "C" fn lukaripe_padding_for_elems(layout: Trailing, elems: u64) -> Number
    ensures { result ≡ number_out (padding_for_elems 64 (trailing_in layout) elems) }
{
    exports_numbers::lukaripe_padding_for_elems(layout, elems)
}

// The size at elems elements; beside 15 the value is the greatest count that has a size.
#[unsafe(no_mangle)]
pub extern "C" fn lukaripe_size_for_elems(layout: Trailing, elems: u64) -> Number
    ensures { result ≡ size_out (size_given 64 (trailing_in layout) elems) }
{
    exports_numbers::lukaripe_size_for_elems(layout, elems)
}

// The layout advanced by bytes, with another element size.
#[unsafe(no_mangle)]
pub extern "C" fn lukaripe_advance(layout: Trailing, bytes: u64, elem_size: u64) -> TrailingAnswer
    ensures { result ≡ trailing_out (advance_for 64 (trailing_in layout) bytes elem_size) }
{
    exports_numbers::lukaripe_advance(layout, bytes, elem_size)
}

// Whether two layouts are found to have the same size at every count.
#[unsafe(no_mangle)]
pub extern "C" fn lukaripe_has_same_size_sequence(layout: Trailing, other: Trailing) -> Number
    ensures { result ≡ decision_out (same_for 64 (trailing_in layout) (trailing_in other)) }
{
    exports_numbers::lukaripe_has_same_size_sequence(layout, other)
}
