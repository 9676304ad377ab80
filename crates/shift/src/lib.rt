// The shift of a conversion, after zerocopy's CastParams: whether the sizes of a target, shifted, are those of a source, and the
// count of the target at which they are. Each is found by the comparison of a mode.
#![tactic(auto)]

ghost use Rattle.std.specs.Prelude.{◌≡◌, ◌<◌};
ghost use Rattle.std.specs.Coded.{le_prop};
ghost use Rattle.util_defs.specs.Refusal.{Meets};
ghost use Rattle.util.specs.View.{decision_says};
ghost use Rattle.trailing_defs.specs.Sequence.{same_sequence};
ghost use Rattle.trailing_defs.specs.Calls.{same_causes};
ghost use Rattle.trailing.specs.View.{trailing_of};
ghost use Rattle.full_defs.specs.Full.{sizes_agree};
ghost use Rattle.layout.specs.View.{info_of, layout_of};
ghost use Rattle.shift_defs.specs.Match.{Comparison, same_from, match_test, match_for, FoundMatch};
ghost use Rattle.shift_defs.specs.Mode.{comparison_of};
ghost use Rattle.shift_defs.specs.Shift.{by_offset, by_size, matched_shift, shift_of, shift_between, shift_causes, shift_for};
ghost use Rattle.shift_defs.specs.Shift.{ShiftMeans};
ghost use Rattle.shift.specs.View.{mode_of, shift_in, shift_says};

use layout::{DstLayout, SizeInfo, ValidLayout};
use trailing::{TrailingSliceLayout, ValidTail};
use util::Refusal;

// A trailing layout that is one, and whose elements have a size.
#[derive(Clone, Copy)]
struct ElemTail {
    valid: ValidTail,
    ghost has_elem: { 0 < valid.layout.elem_size } by { le_prop },
}

// What compares the sizes of two layouts: the ported comparison, of which a no does not mean that they differ, or the full one.
#[derive(Clone, Copy)]
pub enum Mode {
    Ported,
    Full,
}

// A comparison of the sizes of two layouts, as a mode has it.
trait Compares {
    ghost comparison: { Comparison };

    // Whether the source has a size at 0 and the comparison says yes.
    fn found(src: ValidTail, other: ValidTail) -> bool
        ensures { result ≡ same_from 64 comparison (trailing_of src.layout) (trailing_of other.layout) };
}

struct Ported;

// This one asks for the sizes at 0 itself.
impl Compares for Ported {
    ghost comparison = { same_sequence 64 };

    fn found(src: ValidTail, other: ValidTail) -> bool {
        sequence::has_same_size_sequence(src.layout, other.layout).unwrap_or(false)
    }
}

struct Full;

impl Compares for Full {
    ghost comparison = { sizes_agree 64 };

    fn found(src: ValidTail, other: ValidTail) -> bool {
        let Ok(_) = src.layout.size_for_elems(0) else {
            return false;
        };
        full::sizes_agree(src.layout, other.layout).unwrap_or(false)
    }
}

// Whether the target, advanced by dst_base of its elements and given the source's, is found to have the source's sizes.
fn matches<C: Compares>(src: ValidTail, dst: ValidTail, dst_base: u64) -> bool
    ensures { result ≡ match_test 64 C.comparison (trailing_of src.layout) (trailing_of dst.layout) dst_base }
{
    let Some(base_bytes) = util::checked_mul(dst_base, dst.layout.elem_size) else {
        return false;
    };
    let Ok(shifted_dst) = advance::advance(dst.layout, base_bytes, src.layout.elem_size) else {
        return false;
    };
    C::found(
        src,
        ValidTail {
            layout: shifted_dst,
        },
    )
}

// Whether the sizes of any two layouts match so in a mode.
pub fn size_sequences_match(
    src: TrailingSliceLayout<u64>,
    dst: TrailingSliceLayout<u64>,
    dst_base: u64,
    mode: Mode,
) -> Result<bool, Refusal>
    ensures answer { decision_says result ≡ match_for 64 (comparison_of 64 (mode_of mode)) (trailing_of src) (trailing_of dst)
        dst_base }
    ensures meaning { Meets (same_causes (trailing_of src) (trailing_of dst))
        (FoundMatch 64 (comparison_of 64 (mode_of mode)) (trailing_of src) (trailing_of dst) dst_base) (decision_says result) }
{
    let src_word = src.size_rounding_align_and_phase;
    if src_word.0 == 0 {
        return Err(Refusal::RoundingWordZero);
    }
    let dst_word = dst.size_rounding_align_and_phase;
    if dst_word.0 == 0 {
        return Err(Refusal::RoundingWordZero);
    }
    let src = ValidTail { layout: src };
    let dst = ValidTail { layout: dst };
    Ok(match mode {
        Mode::Ported => matches::<Ported>(src, dst, dst_base),
        Mode::Full => matches::<Full>(src, dst, dst_base),
    })
}

// The first way: the difference of the size offsets in whole target elements.
fn exact_offset_delta_elems(src: ValidTail, dst: ElemTail) -> Option<u64>
    ensures { shift_in result ≡ by_offset 64 (trailing_of src.layout) (trailing_of dst.valid.layout) }
{
    let src_offset = src.layout.size_offset().ok()?;
    let dst_offset = dst.valid.layout.size_offset().ok()?;
    if src_offset < dst_offset {
        return None;
    }
    let delta = src_offset - dst_offset;
    let dst_elem_size = dst.valid.layout.elem_size;
    if delta % dst_elem_size == 0 {
        Some(delta / dst_elem_size)
    } else {
        None
    }
}

// The second way: the target's exact count of the source's size at 0.
fn offset_delta_by_size(src: ValidTail, dst_layout: DstLayout<u64>) -> Option<u64>
    ensures { shift_in result ≡ by_size 64 (trailing_of src.layout) (layout_of dst_layout) }
{
    let Ok(src_zero_size) = src.layout.size_for_elems(0) else {
        return None;
    };
    cast::metadata_for_exact_size(dst_layout, src_zero_size).ok()
}

// A shift by the first way, where the two match at it.
fn matching_offset<C: Compares>(src: ValidTail, dst: ElemTail) -> Option<u64>
    ensures { shift_in result ≡ matched_shift 64 C.comparison (trailing_of src.layout) (trailing_of dst.valid.layout)
        (by_offset 64 (trailing_of src.layout) (trailing_of dst.valid.layout)) }
{
    let elems = exact_offset_delta_elems(src, dst)?;
    if matches::<C>(src, dst.valid, elems) {
        Some(elems)
    } else {
        None
    }
}

// By the second way, where they do.
fn matching_size<C: Compares>(
    src: ValidTail,
    dst_layout: DstLayout<u64>,
    dst: ValidTail,
) -> Option<u64>
    ensures { shift_in result ≡ matched_shift 64 C.comparison (trailing_of src.layout) (trailing_of dst.layout)
        (by_size 64 (trailing_of src.layout) (layout_of dst_layout)) }
{
    let count = offset_delta_by_size(src, dst_layout)?;
    if matches::<C>(src, dst, count) {
        Some(count)
    } else {
        None
    }
}

// A shift at which they match: by the first way, else by the second. By a match, and above by an `if`: no proof could name what a
// closure over C gives to `or_else` and `filter`.
fn matching_delta_elems<C: Compares>(
    src: ValidTail,
    dst_layout: DstLayout<u64>,
    dst: ElemTail,
) -> Option<u64>
    ensures { shift_in result ≡ shift_of 64 C.comparison (trailing_of src.layout) (layout_of dst_layout)
        (trailing_of dst.valid.layout) }
{
    match matching_offset::<C>(src, dst) {
        Some(elems) => Some(elems),
        None => matching_size::<C>(src, dst_layout, dst.valid),
    }
}

// The shift between two layouts that passed their checks: there is none from or to a fixed one, nor to elements of no size.
fn checked_delta_elems(valid_src: ValidLayout, valid_dst: ValidLayout, mode: Mode) -> Option<u64>
    ensures { shift_in result ≡ shift_between 64 (comparison_of 64 (mode_of mode)) (info_of valid_src.layout.size_info)
        (layout_of valid_dst.layout) (info_of valid_dst.layout.size_info) }
{
    let src_info = valid_src.layout.size_info;
    let SizeInfo::SliceDst(src) = src_info else {
        return None;
    };
    let dst_layout = valid_dst.layout;
    let dst_info = dst_layout.size_info;
    let SizeInfo::SliceDst(dst) = dst_info else {
        return None;
    };
    if dst.elem_size == 0 {
        return None;
    }
    let src = ValidTail { layout: src };
    let dst = ElemTail {
        valid: ValidTail { layout: dst },
    };
    match mode {
        Mode::Ported => matching_delta_elems::<Ported>(src, dst_layout, dst),
        Mode::Full => matching_delta_elems::<Full>(src, dst_layout, dst),
    }
}

// The count of the second layout that 0 elements of the first become, where the sizes match from there on.
pub fn offset_delta_elems(
    src_layout: DstLayout<u64>,
    dst_layout: DstLayout<u64>,
    mode: Mode,
) -> Result<Option<u64>, Refusal>
    ensures answer { shift_says result ≡ shift_for 64 (comparison_of 64 (mode_of mode)) (layout_of src_layout)
        (layout_of dst_layout) }
    ensures meaning { Meets (shift_causes 64 (layout_of src_layout) (layout_of dst_layout))
        (ShiftMeans 64 (comparison_of 64 (mode_of mode)) (layout_of src_layout).info (layout_of dst_layout).info)
        (shift_says result) }
{
    src_layout.check()?;
    dst_layout.check()?;
    let src = ValidLayout { layout: src_layout };
    let dst = ValidLayout { layout: dst_layout };
    Ok(checked_delta_elems(src, dst, mode))
}
