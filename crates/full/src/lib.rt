// The full comparison of the sizes of two trailing layouts, and the normal form of one (document 02, request 9). zerocopy has
// neither. Both take a phase as the sizes see it: elements step by multiples of the lowest one bit of their size, so that
// phases between two such multiples give the same sizes.
#![tactic(auto)]

ghost use Rattle.std.specs.Prelude.{◌≡◌, ◌+◌, ◌-◌, ◌%◌, ◌^◌, ◌<◌};
ghost use Rattle.util_defs.specs.Round.{up};
ghost use Rattle.util_defs.specs.Refusal.{Tells, Meets};
ghost use Rattle.util.specs.View.{decision_says};
ghost use Rattle.trailing_defs.specs.Size.{size_at};
ghost use Rattle.trailing_defs.specs.Sequence.{same_stride};
ghost use Rattle.trailing_defs.specs.Calls.{same_causes};
ghost use Rattle.trailing.specs.View.{trailing_of};
ghost use Rattle.full_defs.specs.Full.{lowest_bit, seen_phase, sizes_agree, agree_for, FoundEqual};
ghost use Rattle.full_defs.specs.Form.{IsNormal, form, form_of, form_causes, form_for};
ghost use Rattle.full.specs.View.{form_says};

use rounding::RoundingAlignAndPhase;
use trailing::{Decoded, TrailingSliceLayout};
use util::{Align, Refusal};

// What of a trailing layout its sizes show. It has neither an offset nor an alignment.
#[derive(Clone, Copy)]
pub struct NormalForm<N> {
    pub size_base: N,
    pub size_rounding_align_and_phase: RoundingAlignAndPhase<N>,
    pub elem_size: N,
}

// The lowest one bit.
fn lowest_bit(elem: u64) -> Align
    requires { 0 < elem }
    ensures { result.value ≡ lowest_bit 64 elem }
{
    Align {
        value: 1u64 << elem.trailing_zeros(),
    }
}

// A value rounded up to a multiple of a unit.
fn round_up(value: u64, unit: Align) -> u64
    requires { value + (unit.value - 1) < 2 ^ 64 }
    ensures { result ≡ up value unit.value }
{
    unit.round_down(value + (unit.value - 1))
}

// The phase as the sizes see it, where the alignment does not divide the element size.
fn seen_phase(elem: u64, align: Align, phase: u64) -> u64
    requires { (phase < align.value) × (elem % align.value ≡ 0 → ⊥) }
    ensures { result ≡ seen_phase 64 elem align.value phase }
{
    let rounded = round_up(phase, lowest_bit(elem));
    align.remainder(rounded)
}

// The part of the comparison that looks past the sizes at 0: the element size is a multiple of the larger alignment, or both
// alignments, and both phases as the sizes see them, are equal.
fn same_steps(elem: u64, first: Decoded, other: Decoded) -> bool
    ensures { result ≡ same_stride elem first.parts.align (seen_phase 64 elem first.parts.align first.parts.phase)
        other.parts.align (seen_phase 64 elem other.parts.align other.parts.phase) }
{
    let align = first.align();
    let align2 = other.align();
    if align.value > align2.value {
        return align.remainder(elem) == 0;
    }
    if align2.remainder(elem) == 0 {
        return true;
    }
    align.value == align2.value
        && seen_phase(elem, align, first.parts.phase) == seen_phase(elem, align2, other.parts.phase)
}

// Whether base + rounded and base2 + rounded2 are equal. No sum is made, since it may pass the greatest number.
fn same_sum(base: u64, rounded: u64, base2: u64, rounded2: u64) -> bool
    ensures { Tells (base + rounded ≡ base2 + rounded2) result }
{
    if base <= base2 {
        rounded2 <= rounded && rounded - rounded2 == base2 - base
    } else {
        rounded < rounded2 && rounded2 - rounded == base - base2
    }
}

// The comparison past the test of the rounding words.
fn decoded_agree(first: Decoded, other: Decoded) -> bool
    ensures { result ≡ sizes_agree 64 (trailing_of first.layout) (trailing_of other.layout) }
{
    let elem = first.layout.elem_size;
    if elem != other.layout.elem_size {
        return false;
    }
    let rounded = first.rounded_phase();
    let rounded2 = other.rounded_phase();
    same_sum(
        first.layout.size_base,
        rounded,
        other.layout.size_base,
        rounded2,
    ) && same_steps(elem, first, other)
}

// Whether the two layouts have the same size at every count, as unlimited whole numbers.
pub fn sizes_agree(
    first: TrailingSliceLayout<u64>,
    other: TrailingSliceLayout<u64>,
) -> Result<bool, Refusal>
    ensures answer { decision_says result ≡ agree_for 64 (trailing_of first) (trailing_of other) }
    ensures meaning { Meets (same_causes (trailing_of first) (trailing_of other))
        (FoundEqual 64 (trailing_of first) (trailing_of other)) (decision_says result) }
{
    let first = first.decoded()?;
    let other = other.decoded()?;
    Ok(decoded_agree(first, other))
}

// The form whose phase is 0: its base is the size at 0, which must exist.
fn form_at_zero(decoded: Decoded, align: u64) -> Result<NormalForm<u64>, Refusal>
    requires { form_of 64 (trailing_of decoded.layout)
        ≡ form (size_at 64 (trailing_of decoded.layout) 0) align (trailing_of decoded.layout).elem }
    ensures { form_says result ≡ form_for 64 (trailing_of decoded.layout) }
{
    let layout = decoded.layout;
    let Ok(size) = layout.size_for_elems(0) else {
        return Err(Refusal::FormBasePassesMax);
    };
    Ok(NormalForm {
        size_base: size,
        size_rounding_align_and_phase: RoundingAlignAndPhase(align),
        elem_size: layout.elem_size,
    })
}

// The word of the least phase that the sizes see alike, where the alignment does not divide the element size and the phase is not
// seen as 0.
fn least_word(elem: u64, align: Align, phase: u64) -> u64
    requires { (phase < align.value) × (elem % align.value ≡ 0 → ⊥) × (seen_phase 64 elem align.value phase ≡ 0 → ⊥) }
    ensures { result ≡ align.value + (up phase (lowest_bit 64 elem) - lowest_bit 64 elem + 1) }
{
    let unit = lowest_bit(elem);
    align.value + (round_up(phase, unit) - (unit.value - 1))
}

// The normal form past the test of the rounding word.
fn decoded_form(decoded: Decoded) -> Result<NormalForm<u64>, Refusal>
    ensures { form_says result ≡ form_for 64 (trailing_of decoded.layout) }
{
    let layout = decoded.layout;
    let align = decoded.align();
    let phase = decoded.parts.phase;
    let elem = layout.elem_size;
    if align.remainder(elem) == 0 {
        return form_at_zero(decoded, 1);
    }
    if seen_phase(elem, align, phase) == 0 {
        return form_at_zero(decoded, align.value);
    }
    Ok(NormalForm {
        size_base: layout.size_base,
        size_rounding_align_and_phase: RoundingAlignAndPhase(least_word(elem, align, phase)),
        elem_size: elem,
    })
}

// The normal form: of all bases, alignments and phases that give the layout's sizes, the one with the least alignment, then
// the least phase.
pub fn normal_form(layout: TrailingSliceLayout<u64>) -> Result<NormalForm<u64>, Refusal>
    ensures answer { form_says result ≡ form_for 64 (trailing_of layout) }
    ensures meaning { Meets (form_causes 64 (trailing_of layout)) (IsNormal 64 (trailing_of layout)) (form_says result) }
{
    decoded_form(layout.decoded()?)
}
