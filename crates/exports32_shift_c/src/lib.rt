// What C and Rust call of exports32_shift: an export for its function, with the same contract, and no logic of its own. C has
// each function by its name, so that none is an instance of a generic one.
#![tactic(auto)]

ghost use Rattle.std.specs.Prelude.{◌≡◌};
ghost use Rattle.trailing_defs.specs.Sequence.{same_sequence};
ghost use Rattle.shift_defs.specs.Match.{match_for};
ghost use Rattle.exports32_numbers.specs.Numbers.{decision_out32, trailing_in32};

use exports32_numbers::{Number32, Trailing32};

// Whether the target, shifted, is found to have the sizes of the source.
#[unsafe(no_mangle)]
pub extern "C" fn lukaripe32_size_sequences_match(
    src: Trailing32,
    dst: Trailing32,
    dst_base: u32,
) -> Number32
    ensures { result ≡ decision_out32 (match_for 32 (same_sequence 32) (trailing_in32 src) (trailing_in32 dst) dst_base) }
{
    exports32_shift::lukaripe32_size_sequences_match(src, dst, dst_base)
}
