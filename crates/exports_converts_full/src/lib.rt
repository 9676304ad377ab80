// Conversions by the full comparison, for C and Rust: no logic of their own. include/lukaripe.h is their C side. They stand
// apart, so that the conversion of each mode is called once in its unit, and inlined.
#![tactic(auto)]

ghost use Rattle.std.specs.Prelude.{◌≡◌};
ghost use Rattle.full_defs.specs.Full.{sizes_agree};
ghost use Rattle.convert_defs.specs.Convert.{compute_for};
ghost use Rattle.exports_layouts.specs.Layouts.{with_layout};
ghost use Rattle.exports_converts.specs.Converts.{params_out};

use exports_converts::CastParamsOut;
use exports_layouts::Layout;
use shift::Mode;

// How counts of one layout are converted to another, in the full mode.
#[unsafe(no_mangle)]
pub extern "C" fn lukaripe_try_compute_full(src: Layout, dst: Layout) -> CastParamsOut
    ensures { result ≡ params_out (with_layout 64 src (λ l. with_layout 64 dst (λ m. compute_for 64 (sizes_agree 64) l m))) }
{
    exports_converts::compute_out(src, dst, Mode::Full)
}
