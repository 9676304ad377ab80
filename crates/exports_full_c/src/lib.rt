// What C and Rust call of exports_full: an export for each of its functions, with the same contract, and no logic of its own.
#![tactic(auto)]

ghost use Rattle.std.specs.Prelude.{◌≡◌};
ghost use Rattle.full_defs.specs.Full.{agree_for};
ghost use Rattle.full_defs.specs.Form.{form_for};
ghost use Rattle.exports_numbers.specs.Numbers.{decision_out, trailing_in};
ghost use Rattle.exports_full.specs.Forms.{form_out};

use exports_full::NormalFormOut;
use exports_numbers::{Number, Trailing};

// Whether two layouts have the same size at every count.
#[unsafe(no_mangle)]
pub extern "C" fn lukaripe_sizes_agree(first: Trailing, second: Trailing) -> Number
    ensures { result ≡ decision_out (agree_for 64 (trailing_in first) (trailing_in second)) }
{
    exports_full::lukaripe_sizes_agree(first, second)
}

// The normal form of a trailing layout.
#[unsafe(no_mangle)]
pub extern "C" fn lukaripe_normal_form(layout: Trailing) -> NormalFormOut
    ensures { result ≡ form_out (form_for 64 (trailing_in layout)) }
{
    exports_full::lukaripe_normal_form(layout)
}
