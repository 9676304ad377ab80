// The move of a list of records to short ones for C and Rust: no logic of its own. include/lukaripe.h is its C side.
#![tactic(auto)]

ghost use Rattle.std.specs.Prelude.{◌≡◌, length};
ghost use Rattle.short_defs.specs.Moves.{to_short, move_for, moved_for, filled};
ghost use Rattle.exports_short.specs.Shorts.{moved_out};

use exports_short::MovedOut;

// Moves records of 48 bytes to short ones, into the front of out.
#[unsafe(no_mangle)]
pub extern "C" fn lukaripe_records_to_short(records: &[u8], out: &mut [u8]) -> MovedOut
    ensures value { result ≡ moved_out (moved_for to_short records.now (length out.old)) }
    ensures out_after { out.new ≡ filled (move_for to_short records.now (length out.old)) out.old }
{
    let answer = moves::records_to_short(records, out);
    MovedOut::from(answer)
}
