// What C and Rust call of exports32_converts: an export for each of its functions, with the same contract, and no logic of its
// own. C has each function by its name, so that none is an instance of a generic one.
#![tactic(auto)]

ghost use Rattle.std.specs.Prelude.{◌≡◌};
ghost use Rattle.trailing_defs.specs.Sequence.{same_sequence};
ghost use Rattle.cast_defs.specs.Cast.{cast_for};
ghost use Rattle.cast_defs.specs.Exact.{exact_for};
ghost use Rattle.convert_defs.specs.Convert.{compute_for, metadata_for};
ghost use Rattle.exports_converts.specs.Converts.{side_given};
ghost use Rattle.exports32_numbers.specs.Numbers.{number_out32};
ghost use Rattle.exports32_layouts.specs.Layouts.{with_layout32};
ghost use Rattle.exports32_converts.specs.Converts.{cast_out32, params_given32};
ghost use Rattle.exports32_converts.specs.Converts.{params_out32};

use exports32_converts::{CastOut32, CastParams32, CastParamsOut32};
use exports32_layouts::Layout32;
use exports32_numbers::Number32;

// How many elements the bytes at an address hold, and where they split.
#[unsafe(no_mangle)]
pub extern "C" fn lukaripe32_validate_cast_and_convert_metadata(
    layout: Layout32,
    addr: u32,
    bytes_len: u32,
    suffix: bool,
) -> CastOut32
    ensures { result ≡ cast_out32 (with_layout32 32 layout (λ l. cast_for 32 l (side_given suffix) addr bytes_len)) }
{
    exports32_converts::lukaripe32_validate_cast_and_convert_metadata(
        layout, addr, bytes_len, suffix,
    )
}

// The greatest count of exactly this size.
#[unsafe(no_mangle)]
pub extern "C" fn lukaripe32_metadata_for_exact_size(layout: Layout32, size: u32) -> Number32
    ensures { result ≡ number_out32 (with_layout32 32 layout (λ l. exact_for 32 l size)) }
{
    exports32_converts::lukaripe32_metadata_for_exact_size(layout, size)
}

// How counts of one layout are converted to another.
#[unsafe(no_mangle)]
pub extern "C" fn lukaripe32_try_compute(src: Layout32, dst: Layout32) -> CastParamsOut32
    ensures { result ≡ params_out32 (with_layout32 32 src (λ l. with_layout32 32 dst
        (λ m. compute_for 32 (same_sequence 32) l m))) }
{
    exports32_converts::lukaripe32_try_compute(src, dst)
}

// The converted count.
#[unsafe(no_mangle)]
pub extern "C" fn lukaripe32_cast_metadata(params: CastParams32, src_meta: u32) -> Number32
    ensures { result ≡ number_out32 (metadata_for 32 (params_given32 params) src_meta) }
{
    exports32_converts::lukaripe32_cast_metadata(params, src_meta)
}
