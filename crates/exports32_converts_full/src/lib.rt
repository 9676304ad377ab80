// Conversions by the full comparison at 32 bits, for C and Rust: no logic of their own. include/lukaripe32.h is their C side.
// They stand apart, so that the conversion of each mode is called once in its unit, and inlined. C has each function by its
// name, so that none is an instance of a generic one.
#![tactic(auto)]

ghost use Rattle.std.specs.Prelude.{◌≡◌};
ghost use Rattle.full_defs.specs.Full.{sizes_agree};
ghost use Rattle.convert_defs.specs.Convert.{compute_for};
ghost use Rattle.exports32_layouts.specs.Layouts.{with_layout32};
ghost use Rattle.exports32_converts.specs.Converts.{params_out32};

use exports32_converts::CastParamsOut32;
use exports32_layouts::Layout32;
use shift::Mode;

// How counts of one layout are converted to another, in the full mode.
#[unsafe(no_mangle)]
pub extern "C" fn lukaripe32_try_compute_full(src: Layout32, dst: Layout32) -> CastParamsOut32
    ensures { result ≡ params_out32 (with_layout32 32 src (λ l. with_layout32 32 dst
        (λ m. compute_for 32 (sizes_agree 32) l m))) }
{
    exports32_converts::compute_out(src, dst, Mode::Full)
}
