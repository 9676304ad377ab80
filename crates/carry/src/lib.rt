// The count that a count of the source becomes in a conversion, after zerocopy's method cast_metadata of CastParams. A function
// in a crate of its own, since an edit of it then proves none of the conversion's functions again.
#![tactic(auto)]

ghost use Rattle.std.specs.Prelude.{◌≡◌};
ghost use Rattle.util_defs.specs.Refusal.{Meets};
ghost use Rattle.util.specs.View.{number_says};
ghost use Rattle.convert_defs.specs.Convert.{unsized_to_unsized, converted};
ghost use Rattle.convert_defs.specs.Convert.{metadata_causes, metadata_for};
ghost use Rattle.convert.specs.View.{params_in};

use convert::CastParamsInner;
use util::Refusal;

// base + metadata * multiple, where 64 bits hold it.
fn add_scaled_metadata(base: u64, metadata: u64, multiple: u64) -> Result<u64, Refusal>
    ensures { number_says result ≡ metadata_for 64 (unsized_to_unsized base multiple) metadata }
{
    let scaled = util::checked_mul(metadata, multiple).ok_or(Refusal::ConvertedCountPassesMax)?;
    if u64::MAX - base < scaled {
        Err(Refusal::ConvertedCountPassesMax)
    } else {
        Ok(base + scaled)
    }
}

// The count of the target that src_meta of the source becomes.
pub fn cast_metadata(params: CastParamsInner<u64>, src_meta: u64) -> Result<u64, Refusal>
    ensures answer { number_says result ≡ metadata_for 64 (params_in params) src_meta }
    ensures meaning { Meets (metadata_causes 64 (params_in params) src_meta) (λ n. n ≡ converted (params_in params) src_meta)
        (number_says result) }
{
    match params {
        CastParamsInner::UnsizedToUnsized {
            offset_delta_elems,
            elem_multiple,
        } => add_scaled_metadata(offset_delta_elems, src_meta, elem_multiple),
        CastParamsInner::SizedToUnsized { dst_meta } => Ok(dst_meta),
        CastParamsInner::SizedToSized => Ok(0),
    }
}
