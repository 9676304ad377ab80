// The match of two trailing layouts at 32 bits for C and Rust: no logic of its own. include/lukaripe32.h is its C side. It
// stands apart, so that what it calls is called once here, and inlined. C has each function by its name, so that none is an
// instance of a generic one; nor is what stands beside them over the structs that it has by name.
#![tactic(auto)]

ghost use Rattle.std.specs.Prelude.{◌≡◌};
ghost use Rattle.trailing_defs.specs.Sequence.{same_sequence};
ghost use Rattle.shift_defs.specs.Match.{match_for};
ghost use Rattle.shift_defs.specs.Mode.{comparison_of};
ghost use Rattle.shift.specs.View.{mode_of};
ghost use Rattle.exports32_numbers.specs.Numbers.{decision_out32, trailing_in32};

use exports32_numbers::{Number32, Trailing32};
use shift::Mode;
use trailing::TrailingSliceLayout;

// The match in a mode. An export has its mode as a constant, which the compiler then drops.
pub fn match_out(src: Trailing32, dst: Trailing32, dst_base: u32, mode: Mode) -> Number32
    ensures { result ≡ decision_out32 (match_for 32 (comparison_of 32 (mode_of mode)) (trailing_in32 src) (trailing_in32 dst)
        dst_base) }
{
    Number32::from(shifts32::size_sequences_match(
        TrailingSliceLayout::from(src),
        TrailingSliceLayout::from(dst),
        dst_base,
        mode,
    ))
}

// Whether the target, shifted, is found to have the sizes of the source.
#[unsafe(no_mangle)]
pub extern "C" fn lukaripe32_size_sequences_match(
    src: Trailing32,
    dst: Trailing32,
    dst_base: u32,
) -> Number32
    ensures { result ≡ decision_out32 (match_for 32 (same_sequence 32) (trailing_in32 src) (trailing_in32 dst) dst_base) }
{
    match_out(src, dst, dst_base, Mode::Ported)
}
