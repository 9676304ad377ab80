// What C and Rust call of exports_shift: an export for its function, with the same contract, and no logic of its own.
#![tactic(auto)]

ghost use Rattle.std.specs.Prelude.{◌≡◌};
ghost use Rattle.trailing_defs.specs.Sequence.{same_sequence};
ghost use Rattle.shift_defs.specs.Match.{match_for};
ghost use Rattle.exports_numbers.specs.Numbers.{decision_out, trailing_in};

use exports_numbers::{Number, Trailing};

// Whether the target, shifted, is found to have the sizes of the source.
#[unsafe(no_mangle)]
pub extern "C" fn lukaripe_size_sequences_match(
    src: Trailing,
    dst: Trailing,
    dst_base: u64,
) -> Number
    ensures { result ≡ decision_out (match_for 64 (same_sequence 64) (trailing_in src) (trailing_in dst) dst_base) }
{
    exports_shift::lukaripe_size_sequences_match(src, dst, dst_base)
}
