// What C and Rust call of exports_shift_full: an export for its function, with the same contract, and no logic of its own.
#![tactic(auto)]

ghost use Rattle.std.specs.Prelude.{◌≡◌};
ghost use Rattle.full_defs.specs.Full.{sizes_agree};
ghost use Rattle.shift_defs.specs.Match.{match_for};
ghost use Rattle.exports_numbers.specs.Numbers.{decision_out, trailing_in};

use exports_numbers::{Number, Trailing};

// Whether the target, shifted, has the sizes of the source, which has a size at 0.
#[unsafe(no_mangle)]
pub extern "C" fn lukaripe_size_sequences_match_full(
    src: Trailing,
    dst: Trailing,
    dst_base: u64,
) -> Number
    ensures { result ≡ decision_out (match_for 64 (sizes_agree 64) (trailing_in src) (trailing_in dst) dst_base) }
{
    exports_shift_full::lukaripe_size_sequences_match_full(src, dst, dst_base)
}
