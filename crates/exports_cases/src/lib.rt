// All short member lists for C and Rust: no logic of its own. include/lukaripe.h is its C side.
#![tactic(auto)]

ghost use Rattle.std.specs.Prelude.{◌≡◌, length};
ghost use Rattle.cases_defs.specs.Write.{cases_for, count_written, filled_with};
ghost use Rattle.exports_numbers.specs.Numbers.{number_out};

use exports_numbers::Number;

// Writes every list of up to longest members under each packing into the front of out.
#[unsafe(no_mangle)]
pub extern "C" fn lukaripe_write_cases(longest: u64, out: &mut [u8]) -> Number
    ensures value { result ≡ number_out (count_written (cases_for longest (length out.old))) }
    ensures out_after { out.new ≡ filled_with (cases_for longest (length out.old)) out.old }
{
    let answer = cases::write_cases(longest, out);
    Number::from(answer)
}
