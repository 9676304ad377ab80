// The match of two trailing layouts by the full comparison, for C and Rust: no logic of its own. include/lukaripe.h is its C
// side. It stands apart, so that what it calls is called once here, and inlined.
#![tactic(auto)]

ghost use Rattle.std.specs.Prelude.{◌≡◌};
ghost use Rattle.full_defs.specs.Full.{sizes_agree};
ghost use Rattle.shift_defs.specs.Match.{match_for};
ghost use Rattle.exports_numbers.specs.Numbers.{decision_out, trailing_in};

use exports_numbers::{Number, Trailing};
use shift::Mode;

// Whether the target, shifted, has the sizes of the source, which has a size at 0.
#[unsafe(no_mangle)]
pub extern "C" fn lukaripe_size_sequences_match_full(
    src: Trailing,
    dst: Trailing,
    dst_base: u64,
) -> Number
    ensures { result ≡ decision_out (match_for 64 (sizes_agree 64) (trailing_in src) (trailing_in dst) dst_base) }
{
    exports_shift::match_out(src, dst, dst_base, Mode::Full)
}
