// What C and Rust call of exports32_full: an export for each of its functions, with the same contract, and no logic of its own. C
// has each function by its name, so that none is an instance of a generic one.
#![tactic(auto)]

ghost use Rattle.std.specs.Prelude.{◌≡◌};
ghost use Rattle.full_defs.specs.Full.{agree_for};
ghost use Rattle.full_defs.specs.Form.{form_for};
ghost use Rattle.exports32_numbers.specs.Numbers.{decision_out32, trailing_in32};
ghost use Rattle.exports32_full.specs.Forms.{form_out32};

use exports32_full::NormalFormOut32;
use exports32_numbers::{Number32, Trailing32};

// Whether two layouts have the same size at every count.
#[unsafe(no_mangle)]
pub extern "C" fn lukaripe32_sizes_agree(first: Trailing32, second: Trailing32) -> Number32
    ensures { result ≡ decision_out32 (agree_for 32 (trailing_in32 first) (trailing_in32 second)) }
{
    exports32_full::lukaripe32_sizes_agree(first, second)
}

// The normal form of a trailing layout.
#[unsafe(no_mangle)]
pub extern "C" fn lukaripe32_normal_form(layout: Trailing32) -> NormalFormOut32
    ensures { result ≡ form_out32 (form_for 32 (trailing_in32 layout)) }
{
    exports32_full::lukaripe32_normal_form(layout)
}
