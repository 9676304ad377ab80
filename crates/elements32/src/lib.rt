// Arrays and slices of a layout at 32 bits, by those at 64. Each call at 32 bits is a function of its own, and no instance
// of a generic one: it widens what it is given, calls that of 64 bits, and of numbers that come back narrows or refuses
// those, and at 64 bits there would be none of these steps. Those named `.._within` go by a greatest number, for the loops
// of either width.
#![tactic(auto)]

ghost use Rattle.std.specs.Prelude.{◌≡◌};
ghost use Rattle.util_defs.specs.Refusal.{Meets};
ghost use Rattle.layout.specs.View.{layout_of, layout_says};
ghost use Rattle.describe_defs.specs.Elements.{element_causes, array_causes, array_layout, array_for, slice_of, slice_of_for};
ghost use Rattle.elements32.specs.Within.{array_within};

use layout::DstLayout;
use util::Refusal;

// An array of any width up to 64 bits, by its greatest number.
pub fn array_within(elem: DstLayout<u64>, count: u64, max: u64) -> Result<DstLayout<u64>, Refusal>
    ensures { layout_says result ≡ array_within max (array_for 64 (layout_of elem) count) }
{
    let array = elements::for_array(elem, count)?;
    let size_info = array.size_info;
    if layouts32::closed_within(size_info, max) {
        Ok(array)
    } else {
        Err(Refusal::ArrayPassesMax)
    }
}

// The layout of an array of count elements: their size, and all else as the element has it.
pub fn for_array(elem: DstLayout<u32>, count: u32) -> Result<DstLayout<u32>, Refusal>
    ensures answer { layout_says result ≡ array_for 32 (layout_of elem) count }
    ensures meaning { Meets (array_causes 32 (layout_of elem) count) (λ l. l ≡ array_layout (layout_of elem) count)
        (layout_says result) }
{
    layouts32::low_answer(array_within(layouts32::wide_layout(elem), count as u64, numbers32::MAX))
}

// The layout of a slice of such elements: as `for_slice` makes it of size and alignment, with the element's modifier.
pub fn for_slice_of(elem: DstLayout<u32>) -> Result<DstLayout<u32>, Refusal>
    ensures answer { layout_says result ≡ slice_of_for 32 (layout_of elem) }
    ensures meaning { Meets (element_causes 32 (layout_of elem)) (λ l. l ≡ slice_of (layout_of elem)) (layout_says result) }
{
    layouts32::low_answer(elements::for_slice_of(layouts32::wide_layout(elem)))
}
