// The functions of numbers and of trailing layouts at 32 bits for C and Rust: no logic of their own. include/lukaripe32.h is
// their C side. C has each function by its name, so that none is an instance of a generic one.
#![tactic(auto)]

ghost use Rattle.trailing.specs.View.{trailing_of, advance_says, size_says};
ghost use Rattle.std.specs.Prelude.{◌≡◌};
ghost use Rattle.util_defs.specs.Power.{power_of_two};
ghost use Rattle.util_defs.specs.Helpers.{padding_for, round_down_for, max_for, min_for};
ghost use Rattle.util.specs.View.{decision_says, number_says};
ghost use Rattle.rounding.specs.View.{components_says};
ghost use Rattle.rounding.specs.Word.{new_for, components_for, align_for};
ghost use Rattle.trailing_defs.specs.Calls.{size_offset_for, max_trailing_for, padding_for_elems, advance_for, same_for};
ghost use Rattle.trailing_defs.specs.Sized.{size_given};
ghost use Rattle.exports32_numbers.specs.Numbers.{number_out32, size_out32, decision_out32, components_out32};
ghost use Rattle.exports32_numbers.specs.Numbers.{trailing_in32, trailing_words32, trailing_out32};

use rounding::RoundingAlignAndPhase;
use trailing::{SizeRefusal, TrailingSliceLayout};
use util::Refusal;

// C has it by value and by name, so that it is no Result and has no type parameter.
#[repr(C)]
#[derive(Clone, Copy)]
pub struct Number32 {
    pub refusal: u64,
    pub value: u32,
}

// C has it by value and by name, so that it is no Result and has no type parameter.
#[repr(C)]
#[derive(Clone, Copy, Default)]
pub struct Components32 {
    pub refusal: u64,
    pub align: u32,
    pub phase: u32,
}

// A trailing layout: the last four words of its record. C has it by name, so that it has no type parameter.
#[repr(C)]
#[derive(Clone, Copy, Default)]
pub struct Trailing32 {
    pub size_base: u32,
    pub offset: u32,
    pub elem_size: u32,
    pub word: u32,
}

// C has it by value and by name, so that it is no Result and has no type parameter.
#[repr(C)]
#[derive(Clone, Copy)]
pub struct TrailingAnswer32 {
    pub refusal: u64,
    pub layout: Trailing32,
}

// A number: an answer of a function of numbers.
impl From<Result<u32, Refusal>> for Number32 {
    ghost from_gives = { λ a number. number ≡ number_out32 (number_says a) };

    #[inline(always)]
    fn from(a: Result<u32, Refusal>) -> Number32 {
        match a {
            Ok(value) => Number32 { refusal: 0, value },
            Err(refusal) => Number32 {
                refusal: refusal.number(),
                value: 0,
            },
        }
    }
}

// A yes or no as a number.
impl From<Result<bool, Refusal>> for Number32 {
    ghost from_gives = { λ a number. number ≡ decision_out32 (decision_says a) };

    #[inline(always)]
    fn from(a: Result<bool, Refusal>) -> Number32 {
        match a {
            Ok(yes) => Number32 {
                refusal: 0,
                value: u32::from(yes),
            },
            Err(refusal) => Number32 {
                refusal: refusal.number(),
                value: 0,
            },
        }
    }
}

// A size; beside 15 the value is the greatest count that has one.
impl From<Result<u32, SizeRefusal<u32>>> for Number32 {
    ghost from_gives = { λ a number. number ≡ size_out32 (size_says a) };

    fn from(a: Result<u32, SizeRefusal<u32>>) -> Number32 {
        match a {
            Ok(value) => Number32 { refusal: 0, value },
            Err(SizeRefusal::NoSize { greatest }) => Number32 {
                refusal: Refusal::NoSize.number(),
                value: greatest,
            },
            Err(SizeRefusal::Refused(refusal)) => Number32 {
                refusal: refusal.number(),
                value: 0,
            },
        }
    }
}

// The parts of a rounding word.
impl From<Result<rounding::Components<u32>, Refusal>> for Components32 {
    ghost from_gives = { λ a out. out ≡ components_out32 (components_says a) };

    fn from(a: Result<rounding::Components<u32>, Refusal>) -> Components32 {
        match a {
            Ok(rounding::Components { align, phase }) => Components32 {
                refusal: 0,
                align,
                phase,
            },
            Err(refusal) => Components32 {
                refusal: refusal.number(),
                ..Components32::default()
            },
        }
    }
}

// A trailing layout that was handed over.
impl From<Trailing32> for TrailingSliceLayout<u32> {
    ghost from_gives = { λ t tail. trailing_of tail ≡ trailing_in32 t };

    fn from(t: Trailing32) -> TrailingSliceLayout<u32> {
        TrailingSliceLayout {
            offset: t.offset,
            elem_size: t.elem_size,
            size_base: t.size_base,
            size_rounding_align_and_phase: RoundingAlignAndPhase(t.word),
        }
    }
}

// The words of a trailing layout.
impl From<TrailingSliceLayout<u32>> for Trailing32 {
    ghost from_gives = { λ t given. given ≡ trailing_words32 (trailing_of t) };

    fn from(t: TrailingSliceLayout<u32>) -> Trailing32 {
        let word = t.size_rounding_align_and_phase;
        Trailing32 {
            size_base: t.size_base,
            offset: t.offset,
            elem_size: t.elem_size,
            word: word.0,
        }
    }
}

impl From<Result<TrailingSliceLayout<u32>, Refusal>> for TrailingAnswer32 {
    ghost from_gives = { λ a out. out ≡ trailing_out32 (advance_says a) };

    fn from(a: Result<TrailingSliceLayout<u32>, Refusal>) -> TrailingAnswer32 {
        match a {
            Ok(t) => TrailingAnswer32 {
                refusal: 0,
                layout: Trailing32::from(t),
            },
            Err(refusal) => TrailingAnswer32 {
                refusal: refusal.number(),
                layout: Trailing32::default(),
            },
        }
    }
}

// Whether align is a power of two.
#[unsafe(no_mangle)]
pub extern "C" fn lukaripe32_is_power_of_two(align: u32) -> bool
    ensures { result ≡ power_of_two 32 align }
{
    numbers32::is_power_of_two(align)
}

// The bytes that pad len to a multiple of align.
#[unsafe(no_mangle)]
pub extern "C" fn lukaripe32_padding_needed_for(len: u32, align: u32) -> Number32
    ensures { result ≡ number_out32 (padding_for 32 len align) }
{
    Number32::from(numbers32::padding_needed_for(len, align))
}

// The greatest multiple of align that is at most n.
#[unsafe(no_mangle)]
pub extern "C" fn lukaripe32_round_down_to_next_multiple_of_alignment(
    n: u32,
    align: u32,
) -> Number32
    ensures { result ≡ number_out32 (round_down_for 32 n align) }
{
    Number32::from(numbers32::round_down_to_next_multiple_of_alignment(n, align))
}

// The larger of two alignments.
#[unsafe(no_mangle)]
pub extern "C" fn lukaripe32_max(a: u32, b: u32) -> Number32
    ensures { result ≡ number_out32 (max_for 32 a b) }
{
    Number32::from(numbers32::max(a, b))
}

// The smaller of two alignments.
#[unsafe(no_mangle)]
pub extern "C" fn lukaripe32_min(a: u32, b: u32) -> Number32
    ensures { result ≡ number_out32 (min_for 32 a b) }
{
    Number32::from(numbers32::min(a, b))
}

// The rounding word of an alignment and a phase.
#[unsafe(no_mangle)]
pub extern "C" fn lukaripe32_rounding_new(align: u32, phase: u32) -> Number32
    ensures { result ≡ number_out32 (new_for 32 align phase) }
{
    Number32::from(numbers32::new(align, phase).map(|word| word.0))
}

// The alignment and the phase of a rounding word.
#[unsafe(no_mangle)]
pub extern "C" fn lukaripe32_rounding_components(word: u32) -> Components32
    ensures { result ≡ components_out32 (components_for 32 word) }
{
    Components32::from(numbers32::components(RoundingAlignAndPhase(word)))
}

// The alignment of a rounding word.
#[unsafe(no_mangle)]
pub extern "C" fn lukaripe32_rounding_align(word: u32) -> Number32
    ensures { result ≡ number_out32 (align_for 32 word) }
{
    Number32::from(numbers32::align(RoundingAlignAndPhase(word)))
}

// The size offset of a trailing layout.
#[unsafe(no_mangle)]
pub extern "C" fn lukaripe32_size_offset(layout: Trailing32) -> Number32
    ensures { result ≡ number_out32 (size_offset_for 32 (trailing_in32 layout)) }
{
    Number32::from(trailing32::size_offset(TrailingSliceLayout::from(layout)))
}

// The greatest number of trailing bytes whose size is at most available_bytes.
#[unsafe(no_mangle)]
pub extern "C" fn lukaripe32_max_trailing_bytes(
    layout: Trailing32,
    available_bytes: u32,
) -> Number32
    ensures { result ≡ number_out32 (max_trailing_for 32 (trailing_in32 layout) available_bytes) }
{
    Number32::from(trailing32::max_trailing_bytes(
        TrailingSliceLayout::from(layout),
        available_bytes,
    ))
}

// The padding after elems elements, modulo 2^32.
#[unsafe(no_mangle)]
pub extern "C" fn lukaripe32_padding_for_elems(layout: Trailing32, elems: u32) -> Number32
    ensures { result ≡ number_out32 (padding_for_elems 32 (trailing_in32 layout) elems) }
{
    Number32::from(trailing32::padding_for_elems(TrailingSliceLayout::from(layout), elems))
}

// The size at elems elements; beside 15 the value is the greatest count that has a size.
#[unsafe(no_mangle)]
pub extern "C" fn lukaripe32_size_for_elems(layout: Trailing32, elems: u32) -> Number32
    ensures { result ≡ size_out32 (size_given 32 (trailing_in32 layout) elems) }
{
    Number32::from(trailing32::size_for_elems(TrailingSliceLayout::from(layout), elems))
}

// The layout advanced by bytes, with another element size.
#[unsafe(no_mangle)]
pub extern "C" fn lukaripe32_advance(
    layout: Trailing32,
    bytes: u32,
    elem_size: u32,
) -> TrailingAnswer32
    ensures { result ≡ trailing_out32 (advance_for 32 (trailing_in32 layout) bytes elem_size) }
{
    TrailingAnswer32::from(trailing32::advance(TrailingSliceLayout::from(layout), bytes, elem_size))
}

// Whether two layouts are found to have the same size at every count.
#[unsafe(no_mangle)]
pub extern "C" fn lukaripe32_has_same_size_sequence(
    layout: Trailing32,
    other: Trailing32,
) -> Number32
    ensures { result ≡ decision_out32 (same_for 32 (trailing_in32 layout) (trailing_in32 other)) }
{
    Number32::from(sequence32::has_same_size_sequence(
        TrailingSliceLayout::from(layout),
        TrailingSliceLayout::from(other),
    ))
}
