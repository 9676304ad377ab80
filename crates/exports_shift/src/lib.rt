// The match of two trailing layouts for C and Rust: no logic of its own. include/lukaripe.h is its C side. It stands apart,
// so that what it calls is called once here, and inlined.
#![tactic(auto)]

ghost use Rattle.std.specs.Prelude.{◌≡◌};
ghost use Rattle.trailing_defs.specs.Sequence.{same_sequence};
ghost use Rattle.shift_defs.specs.Match.{match_for};
ghost use Rattle.shift_defs.specs.Mode.{comparison_of};
ghost use Rattle.shift.specs.View.{mode_of};
ghost use Rattle.exports_numbers.specs.Numbers.{decision_out, trailing_in};

use exports_numbers::{Number, Trailing};
use shift::Mode;
use trailing::TrailingSliceLayout;

// The match in a mode. An export has its mode as a constant, which the compiler then drops.
pub fn match_out(src: Trailing, dst: Trailing, dst_base: u64, mode: Mode) -> Number
    ensures { result ≡ decision_out (match_for 64 (comparison_of 64 (mode_of mode)) (trailing_in src) (trailing_in dst)
        dst_base) }
{
    Number::from(shift::size_sequences_match(
        TrailingSliceLayout::from(src),
        TrailingSliceLayout::from(dst),
        dst_base,
        mode,
    ))
}

// Whether the target, shifted, is found to have the sizes of the source.
#[unsafe(no_mangle)]
pub extern "C" fn lukaripe_size_sequences_match(
    src: Trailing,
    dst: Trailing,
    dst_base: u64,
) -> Number
    ensures { result ≡ decision_out (match_for 64 (same_sequence 64) (trailing_in src) (trailing_in dst) dst_base) }
{
    match_out(src, dst, dst_base, Mode::Ported)
}
