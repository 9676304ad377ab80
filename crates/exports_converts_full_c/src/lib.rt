// What C and Rust call of exports_converts_full: an export for its function, with the same contract, and no logic of its own.
#![tactic(auto)]

ghost use Rattle.std.specs.Prelude.{◌≡◌};
ghost use Rattle.full_defs.specs.Full.{sizes_agree};
ghost use Rattle.convert_defs.specs.Convert.{compute_for};
ghost use Rattle.exports_layouts.specs.Layouts.{with_layout};
ghost use Rattle.exports_converts.specs.Converts.{params_out};

use exports_converts::CastParamsOut;
use exports_layouts::Layout;

// How counts of one layout are converted to another, in the full mode.
#[unsafe(no_mangle)]
pub extern "C" fn lukaripe_try_compute_full(src: Layout, dst: Layout) -> CastParamsOut
    ensures { result ≡ params_out (with_layout 64 src (λ l. with_layout 64 dst (λ m. compute_for 64 (sizes_agree 64) l m))) }
{
    exports_converts_full::lukaripe_try_compute_full(src, dst)
}
