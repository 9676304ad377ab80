// What C and Rust call of exports32_converts_full: an export for its function, with the same contract, and no logic of its own. C
// has each function by its name, so that none is an instance of a generic one.
#![tactic(auto)]

ghost use Rattle.std.specs.Prelude.{◌≡◌};
ghost use Rattle.full_defs.specs.Full.{sizes_agree};
ghost use Rattle.convert_defs.specs.Convert.{compute_for};
ghost use Rattle.exports32_layouts.specs.Layouts.{with_layout32};
ghost use Rattle.exports32_converts.specs.Converts.{params_out32};

use exports32_converts::CastParamsOut32;
use exports32_layouts::Layout32;

// How counts of one layout are converted to another, in the full mode.
#[unsafe(no_mangle)]
pub extern "C" fn lukaripe32_try_compute_full(src: Layout32, dst: Layout32) -> CastParamsOut32
    ensures { result ≡ params_out32 (with_layout32 32 src (λ l. with_layout32 32 dst
        (λ m. compute_for 32 (sizes_agree 32) l m))) }
{
    exports32_converts_full::lukaripe32_try_compute_full(src, dst)
}
