// The sizes of two trailing layouts compared, and the normal form of one, at 32 bits, by those at 64. Each call at 32 bits
// is a function of its own, and no instance of a generic one: it widens what it is given, calls that of 64 bits, and of
// numbers that come back narrows or refuses those, and at 64 bits there would be none of these steps.
#![tactic(auto)]

ghost use Rattle.trailing.specs.View.{trailing_of};
ghost use Rattle.std.specs.Prelude.{◌≡◌};
ghost use Rattle.util_defs.specs.Width.{M};
ghost use Rattle.util_defs.specs.Refusal.{Meets};
ghost use Rattle.util.specs.View.{decision_says};
ghost use Rattle.trailing_defs.specs.Calls.{same_causes, same_for, FoundSame};
ghost use Rattle.full_defs.specs.Full.{agree_for, FoundEqual};
ghost use Rattle.full_defs.specs.Form.{IsNormal, form_causes, form_for};
ghost use Rattle.full.specs.View.{form_in, form_says};
ghost use Rattle.widths_defs.specs.Low.{mapped, low_form};
ghost use Rattle.widths_defs.specs.Within.{has_start, same_within, form_within};

use full::NormalForm;
use rounding::RoundingAlignAndPhase;
use trailing::TrailingSliceLayout;
use util::Refusal;

// Whether 32 bits hold a size at 0.
pub fn has_start(tail: TrailingSliceLayout<u32>) -> bool
    ensures { result ≡ has_start 32 (trailing_of tail) }
{
    trailing32::size_for_elems(tail, 0).is_ok()
}

// A yes stays one where the first layout has a size at 0.
pub fn same_within(answer: Result<bool, Refusal>, start: bool) -> Result<bool, Refusal>
    ensures { decision_says result ≡ same_within start (decision_says answer) }
{
    let same = answer?;
    if start { Ok(same) } else { Ok(false) }
}

// Whether the two layouts are found to have the same size at every count. A no does not mean that they have not.
pub fn has_same_size_sequence(
    first: TrailingSliceLayout<u32>,
    other: TrailingSliceLayout<u32>,
) -> Result<bool, Refusal>
    ensures answer { decision_says result ≡ same_for 32 (trailing_of first) (trailing_of other) }
    ensures meaning { Meets (same_causes (trailing_of first) (trailing_of other))
        (FoundSame 32 (trailing_of first) (trailing_of other)) (decision_says result) }
{
    let start = has_start(first);
    let wide = trailing32::wide_tail(first);
    let other_wide = trailing32::wide_tail(other);
    same_within(sequence::has_same_size_sequence(wide, other_wide), start)
}

// Whether the two layouts have the same size at every count, as unlimited whole numbers.
pub fn sizes_agree(
    first: TrailingSliceLayout<u32>,
    other: TrailingSliceLayout<u32>,
) -> Result<bool, Refusal>
    ensures answer { decision_says result ≡ agree_for 32 (trailing_of first) (trailing_of other) }
    ensures meaning { Meets (same_causes (trailing_of first) (trailing_of other))
        (FoundEqual 32 (trailing_of first) (trailing_of other)) (decision_says result) }
{
    full::sizes_agree(trailing32::wide_tail(first), trailing32::wide_tail(other))
}

// A form of 64 bits narrowed. No From: neither the trait nor a type of the impl would be of this crate.
fn low_form(form: NormalForm<u64>) -> NormalForm<u32>
    ensures { form_in result ≡ low_form 32 (form_in form) }
{
    let word = form.size_rounding_align_and_phase;
    NormalForm {
        size_base: numbers32::low_word(form.size_base),
        size_rounding_align_and_phase: RoundingAlignAndPhase(numbers32::low_word(word.0)),
        elem_size: numbers32::low_word(form.elem_size),
    }
}

// The form, where its base does not pass.
fn form_within(answer: Result<NormalForm<u64>, Refusal>) -> Result<NormalForm<u32>, Refusal>
    ensures { form_says result ≡ mapped (low_form 32) (form_within (M 32) (form_says answer)) }
{
    let form = answer?;
    if form.size_base > numbers32::MAX {
        Err(Refusal::FormBasePassesMax)
    } else {
        Ok(low_form(form))
    }
}

// The normal form: of all bases, alignments and phases that give the layout's sizes, the one with the least alignment, then
// the least phase.
pub fn normal_form(layout: TrailingSliceLayout<u32>) -> Result<NormalForm<u32>, Refusal>
    ensures answer { form_says result ≡ form_for 32 (trailing_of layout) }
    ensures meaning { Meets (form_causes 32 (trailing_of layout)) (IsNormal 32 (trailing_of layout)) (form_says result) }
{
    form_within(full::normal_form(trailing32::wide_tail(layout)))
}
