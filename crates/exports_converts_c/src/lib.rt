// What C and Rust call of exports_converts: an export for each of its functions, with the same contract, and no logic of its own.
#![tactic(auto)]

ghost use Rattle.std.specs.Prelude.{◌≡◌};
ghost use Rattle.trailing_defs.specs.Sequence.{same_sequence};
ghost use Rattle.cast_defs.specs.Cast.{cast_for};
ghost use Rattle.cast_defs.specs.Exact.{exact_for};
ghost use Rattle.convert_defs.specs.Convert.{compute_for, metadata_for};
ghost use Rattle.exports_numbers.specs.Numbers.{number_out};
ghost use Rattle.exports_layouts.specs.Layouts.{with_layout};
ghost use Rattle.exports_converts.specs.Converts.{cast_out, side_given, params_given};
ghost use Rattle.exports_converts.specs.Converts.{params_out};

use exports_converts::{CastOut, CastParams, CastParamsOut};
use exports_layouts::Layout;
use exports_numbers::Number;

// How many elements the bytes at an address hold, and where they split.
#[unsafe(no_mangle)]
pub extern "C" fn lukaripe_validate_cast_and_convert_metadata(
    layout: Layout,
    addr: u64,
    bytes_len: u64,
    suffix: bool,
) -> CastOut
    ensures { result ≡ cast_out (with_layout 64 layout (λ l. cast_for 64 l (side_given suffix) addr bytes_len)) }
{
    exports_converts::lukaripe_validate_cast_and_convert_metadata(layout, addr, bytes_len, suffix)
}

// The greatest count of exactly this size.
#[unsafe(no_mangle)]
pub extern "C" fn lukaripe_metadata_for_exact_size(layout: Layout, size: u64) -> Number
    ensures { result ≡ number_out (with_layout 64 layout (λ l. exact_for 64 l size)) }
{
    exports_converts::lukaripe_metadata_for_exact_size(layout, size)
}

// How counts of one layout are converted to another.
#[unsafe(no_mangle)]
pub extern "C" fn lukaripe_try_compute(src: Layout, dst: Layout) -> CastParamsOut
    ensures { result ≡ params_out (with_layout 64 src (λ l. with_layout 64 dst (λ m. compute_for 64 (same_sequence 64) l m))) }
{
    exports_converts::lukaripe_try_compute(src, dst)
}

// The converted count.
#[unsafe(no_mangle)]
pub extern "C" fn lukaripe_cast_metadata(params: CastParams, src_meta: u64) -> Number
    ensures { result ≡ number_out (metadata_for 64 (params_given params) src_meta) }
{
    exports_converts::lukaripe_cast_metadata(params, src_meta)
}
