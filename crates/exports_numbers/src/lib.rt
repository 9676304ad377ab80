// The functions of numbers and of trailing layouts for C and Rust: no logic of their own. include/lukaripe.h is their C side.
#![tactic(auto)]

ghost use Rattle.std.specs.Prelude.{◌≡◌};
ghost use Rattle.util_defs.specs.Power.{power_of_two};
ghost use Rattle.util_defs.specs.Helpers.{padding_for, round_down_for, max_for, min_for};
ghost use Rattle.util.specs.View.{number_says, decision_says};
ghost use Rattle.rounding.specs.View.{components_says};
ghost use Rattle.rounding.specs.Word.{new_for, components_for, align_for};
ghost use Rattle.trailing_defs.specs.Calls.{size_offset_for, max_trailing_for, padding_for_elems, advance_for, same_for};
ghost use Rattle.trailing_defs.specs.Sized.{size_given};
ghost use Rattle.trailing.specs.View.{trailing_of, advance_says, size_says};
ghost use Rattle.exports_numbers.specs.Numbers.{number_out, size_out, decision_out, components_out};
ghost use Rattle.exports_numbers.specs.Numbers.{trailing_in, trailing_words, trailing_out};

use rounding::RoundingAlignAndPhase;
use trailing::{SizeRefusal, TrailingSliceLayout};
use util::Refusal;

// C has it by value, so that it is no Result.
#[repr(C)]
#[derive(Clone, Copy)]
pub struct Number {
    pub refusal: u64,
    pub value: u64,
}

// C has it by value, so that it is no Result.
#[repr(C)]
#[derive(Clone, Copy, Default)]
pub struct Components {
    pub refusal: u64,
    pub align: u64,
    pub phase: u64,
}

// A trailing layout: the last four words of its record. Beside a refusal it is zeros.
#[repr(C)]
#[derive(Clone, Copy, Default)]
pub struct Trailing {
    pub size_base: u64,
    pub offset: u64,
    pub elem_size: u64,
    pub word: u64,
}

// C has it by value, so that it is no Result.
#[repr(C)]
#[derive(Clone, Copy)]
pub struct TrailingAnswer {
    pub refusal: u64,
    pub layout: Trailing,
}

// A number: an answer of a function of numbers.
impl From<Result<u64, Refusal>> for Number {
    ghost from_gives = { λ a number. number ≡ number_out (number_says a) };

    #[inline(always)]
    fn from(a: Result<u64, Refusal>) -> Number {
        match a {
            Ok(value) => Number { refusal: 0, value },
            Err(refusal) => Number {
                refusal: refusal.number(),
                value: 0,
            },
        }
    }
}

// A yes or no as a number.
impl From<Result<bool, Refusal>> for Number {
    ghost from_gives = { λ a number. number ≡ decision_out (decision_says a) };

    #[inline(always)]
    fn from(a: Result<bool, Refusal>) -> Number {
        match a {
            Ok(yes) => Number {
                refusal: 0,
                value: u64::from(yes),
            },
            Err(refusal) => Number {
                refusal: refusal.number(),
                value: 0,
            },
        }
    }
}

// A size; beside 15 the value is the greatest count that has one.
impl From<Result<u64, SizeRefusal<u64>>> for Number {
    ghost from_gives = { λ a number. number ≡ size_out (size_says a) };

    fn from(a: Result<u64, SizeRefusal<u64>>) -> Number {
        match a {
            Ok(value) => Number { refusal: 0, value },
            Err(SizeRefusal::NoSize { greatest }) => Number {
                refusal: Refusal::NoSize.number(),
                value: greatest,
            },
            Err(SizeRefusal::Refused(refusal)) => Number {
                refusal: refusal.number(),
                value: 0,
            },
        }
    }
}

// The parts of a rounding word.
impl From<Result<rounding::Components<u64>, Refusal>> for Components {
    ghost from_gives = { λ a out. out ≡ components_out (components_says a) };

    fn from(a: Result<rounding::Components<u64>, Refusal>) -> Components {
        match a {
            Ok(rounding::Components { align, phase }) => Components {
                refusal: 0,
                align,
                phase,
            },
            Err(refusal) => Components {
                refusal: refusal.number(),
                ..Components::default()
            },
        }
    }
}

// A trailing layout that was handed over.
impl From<Trailing> for TrailingSliceLayout<u64> {
    ghost from_gives = { λ t tail. trailing_of tail ≡ trailing_in t };

    fn from(t: Trailing) -> TrailingSliceLayout<u64> {
        TrailingSliceLayout {
            offset: t.offset,
            elem_size: t.elem_size,
            size_base: t.size_base,
            size_rounding_align_and_phase: RoundingAlignAndPhase(t.word),
        }
    }
}

// The words of a trailing layout.
impl From<TrailingSliceLayout<u64>> for Trailing {
    ghost from_gives = { λ t given. given ≡ trailing_words (trailing_of t) };

    fn from(t: TrailingSliceLayout<u64>) -> Trailing {
        let word = t.size_rounding_align_and_phase;
        Trailing {
            size_base: t.size_base,
            offset: t.offset,
            elem_size: t.elem_size,
            word: word.0,
        }
    }
}

impl From<Result<TrailingSliceLayout<u64>, Refusal>> for TrailingAnswer {
    ghost from_gives = { λ a out. out ≡ trailing_out (advance_says a) };

    fn from(a: Result<TrailingSliceLayout<u64>, Refusal>) -> TrailingAnswer {
        match a {
            Ok(t) => TrailingAnswer {
                refusal: 0,
                layout: Trailing::from(t),
            },
            Err(refusal) => TrailingAnswer {
                refusal: refusal.number(),
                layout: Trailing::default(),
            },
        }
    }
}

// Whether align is a power of two.
#[unsafe(no_mangle)]
pub extern "C" fn lukaripe_is_power_of_two(align: u64) -> bool
    ensures { result ≡ power_of_two 64 align }
{
    util::is_power_of_two(align)
}

// The bytes that pad len to a multiple of align.
#[unsafe(no_mangle)]
pub extern "C" fn lukaripe_padding_needed_for(len: u64, align: u64) -> Number
    ensures { result ≡ number_out (padding_for 64 len align) }
{
    Number::from(util::padding_needed_for(len, align))
}

// The greatest multiple of align that is at most n.
#[unsafe(no_mangle)]
pub extern "C" fn lukaripe_round_down_to_next_multiple_of_alignment(n: u64, align: u64) -> Number
    ensures { result ≡ number_out (round_down_for 64 n align) }
{
    Number::from(util::round_down_to_next_multiple_of_alignment(n, align))
}

// The larger of two alignments.
#[unsafe(no_mangle)]
pub extern "C" fn lukaripe_max(a: u64, b: u64) -> Number
    ensures { result ≡ number_out (max_for 64 a b) }
{
    Number::from(util::max(a, b))
}

// The smaller of two alignments.
#[unsafe(no_mangle)]
pub extern "C" fn lukaripe_min(a: u64, b: u64) -> Number
    ensures { result ≡ number_out (min_for 64 a b) }
{
    Number::from(util::min(a, b))
}

// The rounding word of an alignment and a phase.
#[unsafe(no_mangle)]
pub extern "C" fn lukaripe_rounding_new(align: u64, phase: u64) -> Number
    ensures { result ≡ number_out (new_for 64 align phase) }
{
    Number::from(RoundingAlignAndPhase::new(align, phase).map(|word| word.0))
}

// The alignment and the phase of a rounding word.
#[unsafe(no_mangle)]
pub extern "C" fn lukaripe_rounding_components(word: u64) -> Components
    ensures { result ≡ components_out (components_for 64 word) }
{
    Components::from(RoundingAlignAndPhase(word).components())
}

// The alignment of a rounding word.
#[unsafe(no_mangle)]
pub extern "C" fn lukaripe_rounding_align(word: u64) -> Number
    ensures { result ≡ number_out (align_for 64 word) }
{
    Number::from(RoundingAlignAndPhase(word).align())
}

// The size offset of a trailing layout.
#[unsafe(no_mangle)]
pub extern "C" fn lukaripe_size_offset(layout: Trailing) -> Number
    ensures { result ≡ number_out (size_offset_for 64 (trailing_in layout)) }
{
    Number::from(TrailingSliceLayout::from(layout).size_offset())
}

// The greatest number of trailing bytes whose size is at most available_bytes.
#[unsafe(no_mangle)]
pub extern "C" fn lukaripe_max_trailing_bytes(layout: Trailing, available_bytes: u64) -> Number
    ensures { result ≡ number_out (max_trailing_for 64 (trailing_in layout) available_bytes) }
{
    Number::from(TrailingSliceLayout::from(layout).max_trailing_bytes(available_bytes))
}

// The padding after elems elements, modulo 2^64.
#[unsafe(no_mangle)]
pub extern "C" fn lukaripe_padding_for_elems(layout: Trailing, elems: u64) -> Number
    ensures { result ≡ number_out (padding_for_elems 64 (trailing_in layout) elems) }
{
    Number::from(TrailingSliceLayout::from(layout).padding_for_elems(elems))
}

// The size at elems elements; beside 15 the value is the greatest count that has a size.
#[unsafe(no_mangle)]
pub extern "C" fn lukaripe_size_for_elems(layout: Trailing, elems: u64) -> Number
    ensures { result ≡ size_out (size_given 64 (trailing_in layout) elems) }
{
    Number::from(TrailingSliceLayout::from(layout).size_for_elems(elems))
}

// The layout advanced by bytes, with another element size.
#[unsafe(no_mangle)]
pub extern "C" fn lukaripe_advance(layout: Trailing, bytes: u64, elem_size: u64) -> TrailingAnswer
    ensures { result ≡ trailing_out (advance_for 64 (trailing_in layout) bytes elem_size) }
{
    TrailingAnswer::from(advance::advance(TrailingSliceLayout::from(layout), bytes, elem_size))
}

// Whether two layouts are found to have the same size at every count.
#[unsafe(no_mangle)]
pub extern "C" fn lukaripe_has_same_size_sequence(layout: Trailing, other: Trailing) -> Number
    ensures { result ≡ decision_out (same_for 64 (trailing_in layout) (trailing_in other)) }
{
    Number::from(sequence::has_same_size_sequence(
        TrailingSliceLayout::from(layout),
        TrailingSliceLayout::from(other),
    ))
}
