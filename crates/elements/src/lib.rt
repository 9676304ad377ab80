// Arrays and slices of a layout.
#![tactic(auto)]

ghost use Rattle.std.specs.Prelude.{◌≡◌};
ghost use Rattle.util_defs.specs.Refusal.{Meets};
ghost use Rattle.util.specs.View.{number_says};
ghost use Rattle.layout.specs.View.{layout_of, layout_says};
ghost use Rattle.describe_defs.specs.Elements.{element_causes, element_for, array_causes, array_layout, array_for};
ghost use Rattle.describe_defs.specs.Elements.{slice_of, slice_of_for};

use layout::{DstLayout, SizeInfo};
use rounding::RoundingAlignAndPhase;
use trailing::TrailingSliceLayout;
use util::Refusal;

// The size of an element, which has one.
fn elem_size(elem: DstLayout<u64>) -> Result<u64, Refusal>
    ensures { number_says result ≡ element_for 64 (layout_of elem) }
{
    elem.check()?;
    let size_info = elem.size_info;
    match size_info {
        SizeInfo::Sized { size } => Ok(size),
        SizeInfo::SliceDst(_) => Err(Refusal::ElemTrailing),
    }
}

// The layout of an array of count elements: their size, and all else as the element has it.
pub fn for_array(elem: DstLayout<u64>, count: u64) -> Result<DstLayout<u64>, Refusal>
    ensures answer { layout_says result ≡ array_for 64 (layout_of elem) count }
    ensures meaning { Meets (array_causes 64 (layout_of elem) count) (λ l. l ≡ array_layout (layout_of elem) count)
        (layout_says result) }
{
    let size = elem_size(elem)?;
    let product = util::checked_mul(size, count).ok_or(Refusal::ArrayPassesMax)?;
    Ok(DstLayout {
        align: elem.align,
        size_info: SizeInfo::Sized { size: product },
        statically_shallow_unpadded: elem.statically_shallow_unpadded,
        align_modifier: elem.align_modifier,
    })
}

// The layout of a slice of such elements: as `for_slice` makes it of size and alignment, with the element's modifier.
pub fn for_slice_of(elem: DstLayout<u64>) -> Result<DstLayout<u64>, Refusal>
    ensures answer { layout_says result ≡ slice_of_for 64 (layout_of elem) }
    ensures meaning { Meets (element_causes 64 (layout_of elem)) (λ l. l ≡ slice_of (layout_of elem)) (layout_says result) }
{
    let size = elem_size(elem)?;
    Ok(DstLayout {
        align: elem.align,
        size_info: SizeInfo::SliceDst(TrailingSliceLayout {
            offset: 0,
            elem_size: size,
            size_base: 0,
            size_rounding_align_and_phase: RoundingAlignAndPhase(elem.align),
        }),
        statically_shallow_unpadded: true,
        align_modifier: elem.align_modifier,
    })
}
