// The comparison of the sizes of two trailing layouts at every count, after zerocopy's method has_same_size_sequence of
// TrailingSliceLayout. A method stands in the crate of its type; this is a function in a crate of its own, since an edit of it
// then proves none of the layout's other functions again.
#![tactic(auto)]

ghost use Rattle.std.specs.Prelude.{◌≡◌};
ghost use Rattle.util_defs.specs.Refusal.{Meets};
ghost use Rattle.util.specs.View.{decision_says};
ghost use Rattle.trailing_defs.specs.Sequence.{same_start, same_stride, same_sequence};
ghost use Rattle.trailing_defs.specs.Calls.{same_causes, same_for, FoundSame};
ghost use Rattle.trailing.specs.View.{trailing_of};

use rounding::Components;
use trailing::{Decoded, TrailingSliceLayout};
use util::Refusal;

// The part of the comparison that looks past the sizes at 0: the element size is a multiple of the larger alignment, or both
// alignments and both phases are equal. Either is enough for equal sizes at every count, and neither is needed. The larger of
// two alignments is a multiple of the smaller, so that a multiple of it is one of both.
fn same_stride(first: Decoded, other: Decoded) -> bool
    ensures { result ≡ same_stride first.layout.elem_size first.parts.align first.parts.phase other.parts.align
        other.parts.phase }
{
    let elem = first.layout.elem_size;
    let Components { align, phase } = first.parts;
    let Components {
        align: align2,
        phase: phase2,
    } = other.parts;
    if align > align2 {
        return first.align().remainder(elem) == 0;
    }
    other.align().remainder(elem) == 0 || (align == align2 && phase == phase2)
}

// Whether the sizes at 0 exist and are equal.
fn same_start(first: Decoded, other: Decoded) -> bool
    ensures { result ≡ same_start 64 (trailing_of first.layout) (trailing_of other.layout) }
{
    let Ok(first_size) = first.layout.size_for_elems(0) else {
        return false;
    };
    let Ok(other_size) = other.layout.size_for_elems(0) else {
        return false;
    };
    first_size == other_size
}

fn same_sequence(first: Decoded, other: Decoded) -> bool
    ensures { result ≡ same_sequence 64 (trailing_of first.layout) (trailing_of other.layout) }
{
    first.layout.elem_size == other.layout.elem_size
        && same_start(first, other)
        && same_stride(first, other)
}

// Whether the two layouts are found to have the same size at every count. A no does not mean that they have not.
pub fn has_same_size_sequence(
    first: TrailingSliceLayout<u64>,
    other: TrailingSliceLayout<u64>,
) -> Result<bool, Refusal>
    ensures answer { decision_says result ≡ same_for 64 (trailing_of first) (trailing_of other) }
    ensures meaning { Meets (same_causes (trailing_of first) (trailing_of other))
        (FoundSame 64 (trailing_of first) (trailing_of other)) (decision_says result) }
{
    let first = first.decoded()?;
    let other = other.decoded()?;
    Ok(same_sequence(first, other))
}
