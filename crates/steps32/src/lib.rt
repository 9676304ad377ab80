// The member step, rounding up and final padding at 32 bits, by those at 64. Each call at 32 bits is a function of its own,
// and no instance of a generic one: it widens what it is given, calls that of 64 bits, and of numbers that come back narrows
// or refuses those, and at 64 bits there would be none of these steps. Those named `.._within` go by a greatest number, for
// the loops of either width.
#![tactic(auto)]

ghost use Rattle.std.specs.Prelude.{◌≡◌};
ghost use Rattle.util_defs.specs.Refusal.{Meets};
ghost use Rattle.util.specs.View.{number_says};
ghost use Rattle.layout_defs.specs.Extend.{extend_causes, extend_for, Extended, round_up_causes, round_up_for, LeastPlace};
ghost use Rattle.layout.specs.View.{info_of, layout_of, layout_says};
ghost use Rattle.padding_defs.specs.Pad.{pad_causes, pad_for, Padded};
ghost use Rattle.widths_layouts_defs.specs.Within.{start_of, info_within, placed_within, step_within, pad_within};

use layout::{DstLayout, SizeInfo};
use trailing::TrailingSliceLayout;
use util::Refusal;

// What the step adds the place to: a size, or an offset.
fn start(size_info: SizeInfo<u64>) -> u64
    ensures { result ≡ start_of (info_of size_info) }
{
    match size_info {
        SizeInfo::Sized { size } => size,
        SizeInfo::SliceDst(tail) => tail.offset,
    }
}

fn info_within(size_info: SizeInfo<u64>, max: u64) -> bool
    ensures { result ≡ info_within max (info_of size_info) }
{
    match size_info {
        SizeInfo::Sized { size } => size <= max,
        SizeInfo::SliceDst(tail) => tail.offset <= max && tail.size_base <= max,
    }
}

// The place is judged before what stands there.
fn placed_within(layout: DstLayout<u64>, place: u64, max: u64) -> Result<DstLayout<u64>, Refusal>
    ensures { layout_says result ≡ placed_within max place (layout_of layout) }
{
    let size_info = layout.size_info;
    if place <= max {
        if info_within(size_info, max) {
            Ok(layout)
        } else {
            Err(Refusal::MemberPassesMax)
        }
    } else {
        Err(Refusal::RoundingPassesMax)
    }
}

// The member step of any width up to 64 bits, by its greatest number. A loop over members of any width can call it.
pub fn extend_within(
    own: DstLayout<u64>,
    field: DstLayout<u64>,
    repr_packed: u64,
    max: u64,
) -> Result<DstLayout<u64>, Refusal>
    ensures { layout_says result ≡ step_within max (info_of field.size_info)
        (extend_for 64 (layout_of own) (layout_of field) repr_packed) }
{
    let field_info = field.size_info;
    let layout = extend::extend(own, field, repr_packed)?;
    let size_info = layout.size_info;
    let place = start(size_info) - start(field_info);
    placed_within(layout, place, max)
}

// The layout with one member more, which stands at the least place that aligns it; no padding follows it.
#[inline(always)]
pub fn extend(
    own: DstLayout<u32>,
    field: DstLayout<u32>,
    repr_packed: u32,
) -> Result<DstLayout<u32>, Refusal>
    ensures answer { layout_says result ≡ extend_for 32 (layout_of own) (layout_of field) repr_packed }
    ensures meaning { Meets (extend_causes 32 (layout_of own) (layout_of field) repr_packed)
        (Extended (layout_of own) (layout_of field) repr_packed) (layout_says result) }
{
    layouts32::low_answer(extend_within(
        layouts32::wide_layout(own),
        layouts32::wide_layout(field),
        repr_packed as u64,
        numbers32::MAX,
    ))
}

// Final padding of any width up to 64 bits, by its greatest number.
pub fn pad_within(layout: DstLayout<u64>, max: u64) -> Result<DstLayout<u64>, Refusal>
    ensures { layout_says result ≡ pad_within max (pad_for 64 (layout_of layout)) }
{
    let padded = padding::pad_to_align(layout)?;
    let size_info = padded.size_info;
    if layouts32::closed_within(size_info, max) {
        Ok(padded)
    } else {
        Err(Refusal::RoundingPassesMax)
    }
}

// The layout with its size rounded up to its alignment at every count.
pub fn pad_to_align(layout: DstLayout<u32>) -> Result<DstLayout<u32>, Refusal>
    ensures answer { layout_says result ≡ pad_for 32 (layout_of layout) }
    ensures meaning { Meets (pad_causes 32 (layout_of layout)) (Padded 32 (layout_of layout)) (layout_says result) }
{
    layouts32::low_answer(pad_within(layouts32::wide_layout(layout), numbers32::MAX))
}

// The least multiple of align that is at least len.
pub fn round_up(len: u32, align: u32) -> Result<u32, Refusal>
    ensures answer { number_says result ≡ round_up_for 32 len align }
    ensures meaning { Meets (round_up_causes 32 len align) (LeastPlace len align) (number_says result) }
{
    let rounded = layout::round_up(len as u64, align as u64)?;
    if rounded <= numbers32::MAX {
        Ok(numbers32::low_word(rounded))
    } else {
        Err(Refusal::RoundingPassesMax)
    }
}
