// The functions of casts and conversions for C and Rust: no logic of their own. include/lukaripe.h is their C side.
#![tactic(auto)]

ghost use Rattle.std.specs.Prelude.{◌≡◌};
ghost use Rattle.trailing_defs.specs.Sequence.{same_sequence};
ghost use Rattle.cast_defs.specs.Cast.{cast_for};
ghost use Rattle.cast_defs.specs.Exact.{exact_for};
ghost use Rattle.cast.specs.View.{side_of, cast_says};
ghost use Rattle.shift_defs.specs.Mode.{comparison_of};
ghost use Rattle.shift.specs.View.{mode_of};
ghost use Rattle.convert_defs.specs.Convert.{compute_for, metadata_for};
ghost use Rattle.convert.specs.View.{params_in, compute_says};
ghost use Rattle.exports_numbers.specs.Numbers.{number_out};
ghost use Rattle.exports_layouts.specs.Layouts.{with_layout};
ghost use Rattle.exports_converts.specs.Converts.{cast_out, side_given, params_given, params_numbers};
ghost use Rattle.exports_converts.specs.Converts.{params_out};

use cast::{CastType, Granted};
use convert::CastParamsInner;
use exports_layouts::Layout;
use exports_numbers::Number;
use layout::DstLayout;
use shift::Mode;
use util::Refusal;

// C has it by value, so that it is no Result.
#[repr(C)]
#[derive(Clone, Copy, Default)]
pub struct CastOut {
    pub refusal: u64,
    pub count: u64,
    pub split: u64,
}

// The parameters of a conversion by their kind, in place of an enum, which does not cross to C; zeros beside a refusal, and where
// a fixed layout is converted to a fixed one.
#[repr(C)]
#[derive(Clone, Copy, Default)]
pub struct CastParams {
    pub kind: u64,
    pub offset_delta_elems: u64,
    pub elem_multiple: u64,
    pub dst_meta: u64,
}

// C has it by value, so that it is no Result.
#[repr(C)]
#[derive(Clone, Copy)]
pub struct CastParamsOut {
    pub refusal: u64,
    pub params: CastParams,
}

// A granted cast, or the refusal.
impl From<Result<Granted<u64>, Refusal>> for CastOut {
    ghost from_gives = { λ a out. out ≡ cast_out (cast_says a) };

    #[inline(always)]
    fn from(a: Result<Granted<u64>, Refusal>) -> CastOut {
        match a {
            Ok(Granted { elems, split_at }) => CastOut {
                refusal: 0,
                count: elems,
                split: split_at,
            },
            Err(refusal) => CastOut {
                refusal: refusal.number(),
                ..CastOut::default()
            },
        }
    }
}

// The parameters of a conversion, by their kind.
impl From<CastParamsInner<u64>> for CastParams {
    ghost from_gives = { λ params given. given ≡ params_numbers (params_in params) };

    fn from(params: CastParamsInner<u64>) -> CastParams {
        match params {
            CastParamsInner::UnsizedToUnsized {
                offset_delta_elems,
                elem_multiple,
            } => CastParams {
                kind: 2,
                offset_delta_elems,
                elem_multiple,
                dst_meta: 0,
            },
            CastParamsInner::SizedToUnsized { dst_meta } => CastParams {
                kind: 1,
                offset_delta_elems: 0,
                elem_multiple: 0,
                dst_meta,
            },
            CastParamsInner::SizedToSized => CastParams::default(),
        }
    }
}

// The parameters of a conversion, or the refusal.
impl From<Result<CastParamsInner<u64>, Refusal>> for CastParamsOut {
    ghost from_gives = { λ a out. out ≡ params_out (compute_says a) };

    #[inline(always)]
    fn from(a: Result<CastParamsInner<u64>, Refusal>) -> CastParamsOut {
        match a {
            Ok(params) => CastParamsOut {
                refusal: 0,
                params: CastParams::from(params),
            },
            Err(refusal) => CastParamsOut {
                refusal: refusal.number(),
                params: CastParams::default(),
            },
        }
    }
}

// Parameters that were handed over.
impl From<CastParams> for CastParamsInner<u64> {
    ghost from_gives = { λ q params. params_in params ≡ params_given q };

    fn from(q: CastParams) -> CastParamsInner<u64> {
        match q.kind {
            0 => CastParamsInner::SizedToSized,
            1 => CastParamsInner::SizedToUnsized {
                dst_meta: q.dst_meta,
            },
            _ => CastParamsInner::UnsizedToUnsized {
                offset_delta_elems: q.offset_delta_elems,
                elem_multiple: q.elem_multiple,
            },
        }
    }
}

// The side of a cast. No From: neither type is of this crate.
pub fn cast_type(suffix: bool) -> CastType
    ensures { side_of result ≡ side_given suffix }
{
    if suffix {
        CastType::Suffix
    } else {
        CastType::Prefix
    }
}

// How many elements the bytes at an address hold, and where they split.
#[unsafe(no_mangle)]
pub extern "C" fn lukaripe_validate_cast_and_convert_metadata(
    layout: Layout,
    addr: u64,
    bytes_len: u64,
    suffix: bool,
) -> CastOut
    ensures { result ≡ cast_out (with_layout 64 layout (λ l. cast_for 64 l (side_given suffix) addr bytes_len)) }
{
    let side = cast_type(suffix);
    DstLayout::try_from(layout)
        .and_then(|l| cast::validate_cast_and_convert_metadata(l, addr, bytes_len, side))
        .into()
}

// The greatest count of exactly this size.
#[unsafe(no_mangle)]
pub extern "C" fn lukaripe_metadata_for_exact_size(layout: Layout, size: u64) -> Number
    ensures { result ≡ number_out (with_layout 64 layout (λ l. exact_for 64 l size)) }
{
    DstLayout::try_from(layout)
        .and_then(|l| cast::metadata_for_exact_size(l, size))
        .into()
}

// The conversion in a mode. An export has its mode as a constant, which the compiler then drops.
pub fn compute_out(src: Layout, dst: Layout, mode: Mode) -> CastParamsOut
    ensures { result ≡ params_out (with_layout 64 src (λ l. with_layout 64 dst
        (λ m. compute_for 64 (comparison_of 64 (mode_of mode)) l m))) }
{
    DstLayout::try_from(src)
        .and_then(|l| DstLayout::try_from(dst).and_then(|m| convert::try_compute(l, m, mode)))
        .into()
}

// How counts of one layout are converted to another.
#[unsafe(no_mangle)]
pub extern "C" fn lukaripe_try_compute(src: Layout, dst: Layout) -> CastParamsOut
    ensures { result ≡ params_out (with_layout 64 src (λ l. with_layout 64 dst (λ m. compute_for 64 (same_sequence 64) l m))) }
{
    compute_out(src, dst, Mode::Ported)
}

// The converted count.
#[unsafe(no_mangle)]
pub extern "C" fn lukaripe_cast_metadata(params: CastParams, src_meta: u64) -> Number
    ensures { result ≡ number_out (metadata_for 64 (params_given params) src_meta) }
{
    Number::from(carry::cast_metadata(CastParamsInner::from(params), src_meta))
}
