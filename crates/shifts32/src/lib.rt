// The shift of a conversion at 32 bits, by that at 64. Each call at 32 bits is a function of its own, and no instance of a
// generic one: it widens what it is given, calls that of 64 bits, and of numbers that come back narrows or refuses those,
// and at 64 bits there would be none of these steps.
#![tactic(auto)]

ghost use Rattle.layout.specs.View.{info_of, layout_of};
ghost use Rattle.trailing.specs.View.{trailing_of};
ghost use Rattle.std.specs.Prelude.{◌≡◌};
ghost use Rattle.util_defs.specs.Refusal.{Meets};
ghost use Rattle.util.specs.View.{decision_says};
ghost use Rattle.trailing_defs.specs.Calls.{same_causes};
ghost use Rattle.shift_defs.specs.Match.{match_for, FoundMatch};
ghost use Rattle.shift_defs.specs.Mode.{comparison_of};
ghost use Rattle.shift_defs.specs.Shift.{shift_causes, shift_for, ShiftMeans};
ghost use Rattle.shift.specs.View.{mode_of, shift_in, shift_says};
ghost use Rattle.widths_defs.specs.Low.{mapped};
ghost use Rattle.widths_converts_defs.specs.Within.{starts_in, shift_within, low_shift};

use layout::{DstLayout, SizeInfo};
use shift::Mode;
use trailing::TrailingSliceLayout;
use util::Refusal;

// Whether 32 bits hold the size at 0.
pub fn starts_in(size_info: SizeInfo<u32>) -> bool
    ensures { result ≡ starts_in 32 (info_of size_info) }
{
    match size_info {
        SizeInfo::Sized { size: _ } => true,
        SizeInfo::SliceDst(tail) => sequence32::has_start(tail),
    }
}

// Whether the target, advanced by dst_base of its elements and given the source's, is found to have the source's sizes.
pub fn size_sequences_match(
    src: TrailingSliceLayout<u32>,
    dst: TrailingSliceLayout<u32>,
    dst_base: u32,
    mode: Mode,
) -> Result<bool, Refusal>
    ensures answer { decision_says result ≡ match_for 32 (comparison_of 32 (mode_of mode)) (trailing_of src) (trailing_of dst)
        dst_base }
    ensures meaning { Meets (same_causes (trailing_of src) (trailing_of dst))
        (FoundMatch 32 (comparison_of 32 (mode_of mode)) (trailing_of src) (trailing_of dst) dst_base) (decision_says result) }
{
    let start = sequence32::has_start(src);
    let wide = trailing32::wide_tail(src);
    let dst_wide = trailing32::wide_tail(dst);
    sequence32::same_within(
        shift::size_sequences_match(wide, dst_wide, dst_base as u64, mode),
        start,
    )
}

// A shift of 64 bits narrowed. No From: neither the trait nor a type of the impl would be of this crate.
fn low_shift(shift: Option<u64>) -> Option<u32>
    ensures { shift_in result ≡ low_shift 32 (shift_in shift) }
{
    shift.map(numbers32::low_word)
}

// There is no shift where the source has no size at 0.
fn shift_within(answer: Result<Option<u64>, Refusal>, start: bool) -> Result<Option<u32>, Refusal>
    ensures { shift_says result ≡ mapped (low_shift 32) (mapped (shift_within start) (shift_says answer)) }
{
    let found = answer?;
    if start {
        Ok(low_shift(found))
    } else {
        Ok(None)
    }
}

// The count of the second layout that 0 elements of the first become, where the sizes match from there on.
pub fn offset_delta_elems(
    src_layout: DstLayout<u32>,
    dst_layout: DstLayout<u32>,
    mode: Mode,
) -> Result<Option<u32>, Refusal>
    ensures answer { shift_says result ≡ shift_for 32 (comparison_of 32 (mode_of mode)) (layout_of src_layout)
        (layout_of dst_layout) }
    ensures meaning { Meets (shift_causes 32 (layout_of src_layout) (layout_of dst_layout))
        (ShiftMeans 32 (comparison_of 32 (mode_of mode)) (layout_of src_layout).info (layout_of dst_layout).info)
        (shift_says result) }
{
    let size_info = src_layout.size_info;
    let start = starts_in(size_info);
    let src = layouts32::wide_layout(src_layout);
    let dst = layouts32::wide_layout(dst_layout);
    shift_within(shift::offset_delta_elems(src, dst, mode), start)
}
