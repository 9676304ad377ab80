// Conversions at 32 bits, by those at 64, in every mode. Each call at 32 bits is a function of its own, and no instance of a
// generic one: it widens what it is given, calls that of 64 bits, and of numbers that come back narrows or refuses those,
// and at 64 bits there would be none of these steps.
#![tactic(auto)]

ghost use Rattle.layout.specs.View.{layout_of};
ghost use Rattle.std.specs.Prelude.{◌≡◌};
ghost use Rattle.util_defs.specs.Width.{M};
ghost use Rattle.util_defs.specs.Refusal.{Meets};
ghost use Rattle.util.specs.View.{number_says};
ghost use Rattle.layout_defs.specs.Layout.{FitsWidth};
ghost use Rattle.shift_defs.specs.Mode.{comparison_of};
ghost use Rattle.shift.specs.View.{mode_of};
ghost use Rattle.convert_defs.specs.Convert.{Converts, compute_causes, compute_for};
ghost use Rattle.convert_defs.specs.Convert.{converted, metadata_causes, metadata_for};
ghost use Rattle.convert.specs.View.{params_in, compute_says};
ghost use Rattle.widths_defs.specs.Low.{mapped};
ghost use Rattle.widths_converts_defs.specs.Low.{low_params};
ghost use Rattle.widths_converts_defs.specs.Within.{compute_within, metadata_within};

use convert::CastParamsInner;
use layout::DstLayout;
use shift::Mode;
use util::Refusal;

// A conversion of 64 bits narrowed. No From: neither the trait nor a type of the impl would be of this crate.
fn low_params(params: CastParamsInner<u64>) -> CastParamsInner<u32>
    ensures { params_in result ≡ low_params 32 (params_in params) }
{
    match params {
        CastParamsInner::UnsizedToUnsized {
            offset_delta_elems,
            elem_multiple,
        } => CastParamsInner::UnsizedToUnsized {
            offset_delta_elems: numbers32::low_word(offset_delta_elems),
            elem_multiple: numbers32::low_word(elem_multiple),
        },
        CastParamsInner::SizedToUnsized { dst_meta } => CastParamsInner::SizedToUnsized {
            dst_meta: numbers32::low_word(dst_meta),
        },
        CastParamsInner::SizedToSized => CastParamsInner::SizedToSized,
    }
}

// No shift lines the sizes up where the source has none at 0.
fn compute_within(
    answer: Result<CastParamsInner<u64>, Refusal>,
    start: bool,
) -> Result<CastParamsInner<u32>, Refusal>
    ensures { compute_says result ≡ mapped (low_params 32) (compute_within start (compute_says answer)) }
{
    let params = answer?;
    if start {
        Ok(low_params(params))
    } else {
        Err(Refusal::NoShift)
    }
}

// How counts of the first layout are converted to the second, where a value of the first may be read as the second.
pub fn try_compute(
    src_layout: DstLayout<u32>,
    dst_layout: DstLayout<u32>,
    mode: Mode,
) -> Result<CastParamsInner<u32>, Refusal>
    ensures answer { compute_says result ≡ compute_for 32 (comparison_of 32 (mode_of mode)) (layout_of src_layout)
        (layout_of dst_layout) }
    ensures meaning { Meets (compute_causes 32 (comparison_of 32 (mode_of mode)) (layout_of src_layout) (layout_of dst_layout))
        (Converts 32 (comparison_of 32 (mode_of mode)) (layout_of src_layout) (layout_of dst_layout)) (compute_says result) }
    ensures fits { FitsWidth 32 (layout_of src_layout) × FitsWidth 32 (layout_of dst_layout) }
{
    let size_info = src_layout.size_info;
    let start = shifts32::starts_in(size_info);
    let src = layouts32::wide_layout(src_layout);
    let dst = layouts32::wide_layout(dst_layout);
    compute_within(convert::try_compute(src, dst, mode), start)
}

// The count, where it does not pass.
fn metadata_within(answer: Result<u64, Refusal>) -> Result<u32, Refusal>
    ensures { number_says result ≡ metadata_within (M 32) (number_says answer) }
{
    let count = answer?;
    if count > numbers32::MAX {
        Err(Refusal::ConvertedCountPassesMax)
    } else {
        Ok(count as u32)
    }
}

// The count of the second layout that src_meta of the first become.
pub fn cast_metadata(params: CastParamsInner<u32>, src_meta: u32) -> Result<u32, Refusal>
    ensures answer { number_says result ≡ metadata_for 32 (params_in params) src_meta }
    ensures meaning { Meets (metadata_causes 32 (params_in params) src_meta) (λ n. n ≡ converted (params_in params) src_meta)
        (number_says result) }
{
    metadata_within(carry::cast_metadata(CastParamsInner::from(params), src_meta as u64))
}
