// The functions of casts and conversions at 32 bits for C and Rust: no logic of their own. include/lukaripe32.h is their C
// side. C has each function by its name, so that none is an instance of a generic one; nor is what stands beside them over
// the structs that it has by name.
#![tactic(auto)]

ghost use Rattle.convert.specs.View.{params_in, compute_says};
ghost use Rattle.std.specs.Prelude.{◌≡◌};
ghost use Rattle.trailing_defs.specs.Sequence.{same_sequence};
ghost use Rattle.cast_defs.specs.Cast.{cast_for};
ghost use Rattle.cast_defs.specs.Exact.{exact_for};
ghost use Rattle.cast.specs.View.{cast_says};
ghost use Rattle.shift_defs.specs.Mode.{comparison_of};
ghost use Rattle.shift.specs.View.{mode_of};
ghost use Rattle.convert_defs.specs.Convert.{compute_for, metadata_for};
ghost use Rattle.exports_converts.specs.Converts.{side_given};
ghost use Rattle.exports32_numbers.specs.Numbers.{number_out32};
ghost use Rattle.exports32_layouts.specs.Layouts.{with_layout32};
ghost use Rattle.exports32_converts.specs.Converts.{cast_out32, params_given32, params_numbers32};
ghost use Rattle.exports32_converts.specs.Converts.{params_out32};

use cast::Granted;
use convert::CastParamsInner;
use exports32_layouts::Layout32;
use exports32_numbers::Number32;
use layout::DstLayout;
use shift::Mode;
use util::Refusal;

// C has it by value and by name, so that it is no Result and has no type parameter.
#[repr(C)]
#[derive(Clone, Copy, Default)]
pub struct CastOut32 {
    pub refusal: u64,
    pub count: u32,
    pub split: u32,
}

// C has it by name, so that it has no type parameter.
#[repr(C)]
#[derive(Clone, Copy, Default)]
pub struct CastParams32 {
    pub kind: u32,
    pub offset_delta_elems: u32,
    pub elem_multiple: u32,
    pub dst_meta: u32,
}

// C has it by value and by name, so that it is no Result and has no type parameter.
#[repr(C)]
#[derive(Clone, Copy)]
pub struct CastParamsOut32 {
    pub refusal: u64,
    pub params: CastParams32,
}

// A granted cast, or the refusal.
impl From<Result<Granted<u32>, Refusal>> for CastOut32 {
    ghost from_gives = { λ a out. out ≡ cast_out32 (cast_says a) };

    #[inline(always)]
    fn from(a: Result<Granted<u32>, Refusal>) -> CastOut32 {
        match a {
            Ok(Granted { elems, split_at }) => CastOut32 {
                refusal: 0,
                count: elems,
                split: split_at,
            },
            Err(refusal) => CastOut32 {
                refusal: refusal.number(),
                ..CastOut32::default()
            },
        }
    }
}

// The parameters of a conversion, by their kind.
impl From<CastParamsInner<u32>> for CastParams32 {
    ghost from_gives = { λ params given. given ≡ params_numbers32 (params_in params) };

    fn from(params: CastParamsInner<u32>) -> CastParams32 {
        match params {
            CastParamsInner::UnsizedToUnsized {
                offset_delta_elems,
                elem_multiple,
            } => CastParams32 {
                kind: 2,
                offset_delta_elems,
                elem_multiple,
                dst_meta: 0,
            },
            CastParamsInner::SizedToUnsized { dst_meta } => CastParams32 {
                kind: 1,
                offset_delta_elems: 0,
                elem_multiple: 0,
                dst_meta,
            },
            CastParamsInner::SizedToSized => CastParams32::default(),
        }
    }
}

// The parameters of a conversion, or the refusal.
impl From<Result<CastParamsInner<u32>, Refusal>> for CastParamsOut32 {
    ghost from_gives = { λ a out. out ≡ params_out32 (compute_says a) };

    #[inline(always)]
    fn from(a: Result<CastParamsInner<u32>, Refusal>) -> CastParamsOut32 {
        match a {
            Ok(params) => CastParamsOut32 {
                refusal: 0,
                params: CastParams32::from(params),
            },
            Err(refusal) => CastParamsOut32 {
                refusal: refusal.number(),
                params: CastParams32::default(),
            },
        }
    }
}

// Parameters that were handed over.
impl From<CastParams32> for CastParamsInner<u32> {
    ghost from_gives = { λ q params. params_in params ≡ params_given32 q };

    fn from(q: CastParams32) -> CastParamsInner<u32> {
        match q.kind {
            0 => CastParamsInner::SizedToSized,
            1 => CastParamsInner::SizedToUnsized {
                dst_meta: q.dst_meta,
            },
            _ => CastParamsInner::UnsizedToUnsized {
                offset_delta_elems: q.offset_delta_elems,
                elem_multiple: q.elem_multiple,
            },
        }
    }
}

// How many elements the bytes at an address hold, and where they split.
#[unsafe(no_mangle)]
pub extern "C" fn lukaripe32_validate_cast_and_convert_metadata(
    layout: Layout32,
    addr: u32,
    bytes_len: u32,
    suffix: bool,
) -> CastOut32
    ensures { result ≡ cast_out32 (with_layout32 32 layout (λ l. cast_for 32 l (side_given suffix) addr bytes_len)) }
{
    let side = exports_converts::cast_type(suffix);
    DstLayout::try_from(layout)
        .and_then(|l| casts32::validate_cast_and_convert_metadata(l, addr, bytes_len, side))
        .into()
}

// The greatest count of exactly this size.
#[unsafe(no_mangle)]
pub extern "C" fn lukaripe32_metadata_for_exact_size(layout: Layout32, size: u32) -> Number32
    ensures { result ≡ number_out32 (with_layout32 32 layout (λ l. exact_for 32 l size)) }
{
    DstLayout::try_from(layout)
        .and_then(|l| casts32::metadata_for_exact_size(l, size))
        .into()
}

// The conversion in a mode. An export has its mode as a constant, which the compiler then drops.
pub fn compute_out(src: Layout32, dst: Layout32, mode: Mode) -> CastParamsOut32
    ensures { result ≡ params_out32 (with_layout32 32 src (λ l. with_layout32 32 dst
        (λ m. compute_for 32 (comparison_of 32 (mode_of mode)) l m))) }
{
    DstLayout::try_from(src)
        .and_then(|l| DstLayout::try_from(dst).and_then(|m| converts32::try_compute(l, m, mode)))
        .into()
}

// How counts of one layout are converted to another.
#[unsafe(no_mangle)]
pub extern "C" fn lukaripe32_try_compute(src: Layout32, dst: Layout32) -> CastParamsOut32
    ensures { result ≡ params_out32 (with_layout32 32 src (λ l. with_layout32 32 dst
        (λ m. compute_for 32 (same_sequence 32) l m))) }
{
    compute_out(src, dst, Mode::Ported)
}

// The converted count.
#[unsafe(no_mangle)]
pub extern "C" fn lukaripe32_cast_metadata(params: CastParams32, src_meta: u32) -> Number32
    ensures { result ≡ number_out32 (metadata_for 32 (params_given32 params) src_meta) }
{
    Number32::from(converts32::cast_metadata(CastParamsInner::from(params), src_meta))
}
