// Trailing layouts at 32 bits, by those at 64. Where 32 bits do not hold what comes back it is refused, by the number that
// the papers give it. Each call at 32 bits is a function of its own, and no instance of a generic one: it widens what it is
// given, calls that of 64 bits, and of numbers that come back narrows or refuses those, and at 64 bits there would be none
// of these steps.
#![tactic(auto)]

ghost use Rattle.util.specs.View.{number_says};
ghost use Rattle.std.specs.Prelude.{◌≡◌, ◌^◌, ◌≤◌, ◌<◌};
ghost use Rattle.util_defs.specs.Width.{M};
ghost use Rattle.util_defs.specs.Refusal.{Meets};
ghost use Rattle.rounding.specs.Word.{word_causes};
ghost use Rattle.trailing_defs.specs.Calls.{size_offset_for, SizeOffset, max_trailing_causes, max_trailing_for, GreatestIn};
ghost use Rattle.trailing_defs.specs.Calls.{padding_for_elems, PaddingAt, advance_causes, advance_for, Advanced};
ghost use Rattle.trailing_defs.specs.Size.{size_at};
ghost use Rattle.trailing_defs.specs.Sized.{size_given, SizeMeans};
ghost use Rattle.trailing.specs.View.{trailing_of, advance_says, size_says};
ghost use Rattle.widths_defs.specs.Low.{mapped, low_tail, TailIn};
ghost use Rattle.widths_defs.specs.Within.{none_within, advance_within};

use rounding::RoundingAlignAndPhase;
use trailing::{SizeRefusal, TrailingSliceLayout};
use util::Refusal;

// A layout of 32 bits widened to 64, which hold the same numbers. No From: an impl would stand in the crate of the type,
// below the definition of what this promises of 32 bits.
pub fn wide_tail(tail: TrailingSliceLayout<u32>) -> TrailingSliceLayout<u64>
    ensures { (trailing_of result ≡ trailing_of tail) × TailIn 32 (trailing_of tail) }
{
    let word = tail.size_rounding_align_and_phase;
    TrailingSliceLayout {
        offset: tail.offset as u64,
        elem_size: tail.elem_size as u64,
        size_base: tail.size_base as u64,
        size_rounding_align_and_phase: RoundingAlignAndPhase(word.0 as u64),
    }
}

// A layout of 64 bits narrowed. No From: neither the trait nor a type of the impl would be of this crate.
pub fn low_tail(tail: TrailingSliceLayout<u64>) -> TrailingSliceLayout<u32>
    ensures { trailing_of result ≡ low_tail 32 (trailing_of tail) }
{
    let word = tail.size_rounding_align_and_phase;
    TrailingSliceLayout {
        offset: numbers32::low_word(tail.offset),
        elem_size: numbers32::low_word(tail.elem_size),
        size_base: numbers32::low_word(tail.size_base),
        size_rounding_align_and_phase: RoundingAlignAndPhase(numbers32::low_word(word.0)),
    }
}

// Where 32 bits hold no size at a count: the greatest count that has one is what the greatest room holds.
fn none_within(tail: TrailingSliceLayout<u64>) -> Result<u32, SizeRefusal<u32>>
    requires { ((trailing_of tail).word < 2 ^ 32) × (size_at 64 (trailing_of tail) 0 ≤ M 32 → 0 < (trailing_of tail).elem) }
    ensures { size_says result ≡ none_within (trailing_of tail).elem (max_trailing_for 64 (trailing_of tail) (M 32)) }
{
    let Ok(bytes) = tail.max_trailing_bytes(numbers32::MAX) else {
        return Err(SizeRefusal::Refused(Refusal::NoSizeAtZero));
    };
    Err(SizeRefusal::NoSize {
        greatest: (bytes / tail.elem_size) as u32,
    })
}

// The layout advanced, where its base does not pass: base and phase pass where the base does.
fn advance_within(
    answer: Result<TrailingSliceLayout<u64>, Refusal>,
) -> Result<TrailingSliceLayout<u32>, Refusal>
    ensures { advance_says result ≡ mapped (low_tail 32) (advance_within (M 32) (advance_says answer)) }
{
    let tail = answer?;
    if tail.size_base > numbers32::MAX {
        Err(Refusal::AdvancePassesMax)
    } else {
        Ok(low_tail(tail))
    }
}

// The base rounded down to a multiple of the alignment, plus the phase.
pub fn size_offset(tail: TrailingSliceLayout<u32>) -> Result<u32, Refusal>
    ensures answer { number_says result ≡ size_offset_for 32 (trailing_of tail) }
    ensures meaning { Meets (word_causes (trailing_of tail).word) (SizeOffset (trailing_of tail)) (number_says result) }
{
    let wide = wide_tail(tail);
    numbers32::low_number(wide.size_offset())
}

// The greatest number of trailing bytes whose size is at most available_bytes.
pub fn max_trailing_bytes(
    tail: TrailingSliceLayout<u32>,
    available_bytes: u32,
) -> Result<u32, Refusal>
    ensures answer { number_says result ≡ max_trailing_for 32 (trailing_of tail) available_bytes }
    ensures meaning { Meets (max_trailing_causes 32 (trailing_of tail) available_bytes)
        (GreatestIn 32 (trailing_of tail) available_bytes) (number_says result) }
{
    let wide = wide_tail(tail);
    numbers32::low_number(wide.max_trailing_bytes(available_bytes as u64))
}

// The size at elems less the end of the elements, modulo 2^32.
pub fn padding_for_elems(tail: TrailingSliceLayout<u32>, elems: u32) -> Result<u32, Refusal>
    ensures answer { number_says result ≡ padding_for_elems 32 (trailing_of tail) elems }
    ensures meaning { Meets (word_causes (trailing_of tail).word) (PaddingAt 32 (trailing_of tail) elems) (number_says result) }
{
    let wide = wide_tail(tail);
    numbers32::low_number(wide.padding_for_elems(elems as u64))
}

// The size at elems.
pub fn size_for_elems(tail: TrailingSliceLayout<u32>, elems: u32) -> Result<u32, SizeRefusal<u32>>
    ensures answer { size_says result ≡ size_given 32 (trailing_of tail) elems }
    ensures meaning { SizeMeans 32 (trailing_of tail) elems (size_says result) }
{
    let wide = wide_tail(tail);
    match wide.size_for_elems(elems as u64) {
        Ok(size) => {
            if size > numbers32::MAX {
                none_within(wide)
            } else {
                Ok(size as u32)
            }
        }
        Err(SizeRefusal::NoSize { greatest: _ }) => none_within(wide),
        Err(SizeRefusal::Refused(number)) => Err(SizeRefusal::Refused(number)),
    }
}

// The layout advanced by bytes, with another element size: its sizes are the old ones with that many bytes more.
pub fn advance(
    tail: TrailingSliceLayout<u32>,
    bytes: u32,
    elem_size: u32,
) -> Result<TrailingSliceLayout<u32>, Refusal>
    ensures answer { advance_says result ≡ advance_for 32 (trailing_of tail) bytes elem_size }
    ensures meaning { Meets (advance_causes 32 (trailing_of tail) bytes) (Advanced 32 (trailing_of tail) bytes elem_size)
        (advance_says result) }
{
    advance_within(advance::advance(wide_tail(tail), bytes as u64, elem_size as u64))
}
