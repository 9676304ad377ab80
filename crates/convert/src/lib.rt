// Conversions, after zerocopy's CastParams: whether a value of one layout may be read as another, and how its count is
// converted.
#![tactic(auto)]

ghost use Rattle.std.specs.Prelude.{◌≡◌};
ghost use Rattle.util_defs.specs.Refusal.{answered, None, Meets, unless};
ghost use Rattle.trailing.specs.View.{trailing_of};
ghost use Rattle.layout_defs.specs.Layout.{fixed, trailing, FitsWidth};
ghost use Rattle.layout.specs.View.{info_of, layout_of};
ghost use Rattle.shift_defs.specs.Mode as Modes;
ghost use Rattle.shift_defs.specs.Mode.{comparison_of};
ghost use Rattle.shift.specs.View.{mode_of};
ghost use Rattle.convert_defs.specs.Reasons.{conversion_causes};
ghost use Rattle.convert_defs.specs.Convert.{Params, params_of, by_kinds};
ghost use Rattle.convert_defs.specs.Convert.{Converts, compute_causes, compute_for};
ghost use Rattle.convert.specs.View.{params_in, compute_says};

use layout::{DstLayout, SizeInfo, ValidLayout};
use shift::Mode;
use trailing::TrailingSliceLayout;
use util::Refusal;

// How a count is converted.
#[derive(Clone, Copy)]
pub enum CastParamsInner<N> {
    // A trailing source: offset_delta_elems and elem_multiple for each of its elements.
    UnsizedToUnsized {
        offset_delta_elems: N,
        elem_multiple: N,
    },
    // A fixed source and a trailing target: this count.
    SizedToUnsized {
        dst_meta: N,
    },
    SizedToSized,
}

// The same of 32 bits and of 64.
impl From<CastParamsInner<u32>> for CastParamsInner<u64> {
    ghost from_gives = { λ narrow wide. params_in wide ≡ params_in narrow };

    fn from(params: CastParamsInner<u32>) -> CastParamsInner<u64> {
        match params {
            CastParamsInner::UnsizedToUnsized {
                offset_delta_elems,
                elem_multiple,
            } => CastParamsInner::UnsizedToUnsized {
                offset_delta_elems: offset_delta_elems as u64,
                elem_multiple: elem_multiple as u64,
            },
            CastParamsInner::SizedToUnsized { dst_meta } => CastParamsInner::SizedToUnsized {
                dst_meta: dst_meta as u64,
            },
            CastParamsInner::SizedToSized => CastParamsInner::SizedToSized,
        }
    }
}

// Trailing to trailing. Both layouts and the mode go on, here and below, as the Rust's method and its closure have them.
fn compute_unsized(
    valid_src: ValidLayout,
    src: TrailingSliceLayout<u64>,
    valid_dst: ValidLayout,
    dst: TrailingSliceLayout<u64>,
    mode: Mode,
) -> Result<CastParamsInner<u64>, Refusal>
    requires { (info_of valid_src.layout.size_info ≡ trailing (trailing_of src))
        × (info_of valid_dst.layout.size_info ≡ trailing (trailing_of dst)) }
    ensures { compute_says result ≡ by_kinds 64 (comparison_of 64 (mode_of mode)) (trailing (trailing_of src))
        (layout_of valid_dst.layout) (trailing (trailing_of dst)) }
{
    let dst_elem_size = dst.elem_size;
    if dst_elem_size == 0 {
        return Err(Refusal::TargetElemSizeZero);
    }
    let src_elem_size = src.elem_size;
    if src_elem_size < dst_elem_size {
        return Err(Refusal::SourceElemSmaller);
    }
    if src_elem_size % dst_elem_size != 0 {
        return Err(Refusal::ElemNoMultiple);
    }
    let Ok(shift) = shift::offset_delta_elems(valid_src.layout, valid_dst.layout, mode) else {
        return Err(Refusal::NoShift);
    };
    match shift {
        Some(elems) => Ok(CastParamsInner::UnsizedToUnsized {
            offset_delta_elems: elems,
            elem_multiple: src_elem_size / dst_elem_size,
        }),
        None => Err(Refusal::NoShift),
    }
}

// From a fixed source, which is the same in every mode.
fn compute_from_sized(
    src_size: u64,
    dst_layout: DstLayout<u64>,
) -> Result<CastParamsInner<u64>, Refusal>
    ensures { (m : Modes.Mode) → compute_says result ≡ by_kinds 64 (comparison_of 64 m) (fixed src_size) (layout_of dst_layout)
        (info_of dst_layout.size_info) }
{
    let size_info = dst_layout.size_info;
    match size_info {
        SizeInfo::Sized { size } => {
            if src_size == size {
                Ok(CastParamsInner::SizedToSized)
            } else {
                Err(Refusal::FixedSizesDiffer)
            }
        }
        SizeInfo::SliceDst(_) => {
            let Ok(dst_meta) = cast::metadata_for_exact_size(dst_layout, src_size) else {
                return Err(Refusal::SourceNoExactCount);
            };
            Ok(CastParamsInner::SizedToUnsized { dst_meta })
        }
    }
}

fn compute_from_unsized(
    valid_src: ValidLayout,
    src: TrailingSliceLayout<u64>,
    valid_dst: ValidLayout,
    mode: Mode,
) -> Result<CastParamsInner<u64>, Refusal>
    requires { info_of valid_src.layout.size_info ≡ trailing (trailing_of src) }
    ensures { compute_says result ≡ by_kinds 64 (comparison_of 64 (mode_of mode)) (trailing (trailing_of src))
        (layout_of valid_dst.layout) (info_of valid_dst.layout.size_info) }
{
    let size_info = valid_dst.layout.size_info;
    match size_info {
        SizeInfo::Sized { size: _ } => Err(Refusal::TrailingToFixed),
        SizeInfo::SliceDst(dst) => compute_unsized(valid_src, src, valid_dst, dst, mode),
    }
}

// The conversion between two layouts that passed their checks.
fn compute(
    valid_src: ValidLayout,
    valid_dst: ValidLayout,
    mode: Mode,
) -> Result<CastParamsInner<u64>, Refusal>
    ensures { compute_says result ≡ unless
        (conversion_causes 64 (comparison_of 64 (mode_of mode)) (layout_of valid_src.layout) (layout_of valid_dst.layout))
        (params_of 64 (comparison_of 64 (mode_of mode)) (layout_of valid_src.layout).info (layout_of valid_dst.layout)
        (layout_of valid_dst.layout).info) }
{
    let src_layout = valid_src.layout;
    let dst_layout = valid_dst.layout;
    if src_layout.align < dst_layout.align {
        return Err(Refusal::SourceAlignLower);
    }
    let size_info = src_layout.size_info;
    match size_info {
        SizeInfo::Sized { size } => compute_from_sized(size, dst_layout),
        SizeInfo::SliceDst(src) => compute_from_unsized(valid_src, src, valid_dst, mode),
    }
}

// How counts of the first layout are converted to the second, where a value of the first may be read as the second, the sizes
// being compared as the mode says. What `fits` says is known of every u64 inside a function; a caller's proof, which needs it
// for the conversion guarantee, has it from here.
pub fn try_compute(
    src_layout: DstLayout<u64>,
    dst_layout: DstLayout<u64>,
    mode: Mode,
) -> Result<CastParamsInner<u64>, Refusal>
    ensures answer { compute_says result ≡ compute_for 64 (comparison_of 64 (mode_of mode)) (layout_of src_layout)
        (layout_of dst_layout) }
    ensures meaning { Meets (compute_causes 64 (comparison_of 64 (mode_of mode)) (layout_of src_layout) (layout_of dst_layout))
        (Converts 64 (comparison_of 64 (mode_of mode)) (layout_of src_layout) (layout_of dst_layout)) (compute_says result) }
    ensures fits { (q : Params) → compute_says result ≡ answered q → FitsWidth 64 (layout_of src_layout) × FitsWidth 64
        (layout_of dst_layout) }
{
    src_layout.check()?;
    dst_layout.check()?;
    let src = ValidLayout { layout: src_layout };
    let dst = ValidLayout { layout: dst_layout };
    compute(src, dst, mode)
}
