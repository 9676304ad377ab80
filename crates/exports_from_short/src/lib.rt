// The move of a list of records from short ones for C and Rust: no logic of its own. include/lukaripe.h is its C side.
#![tactic(auto)]

ghost use Rattle.std.specs.Prelude.{◌≡◌, length};
ghost use Rattle.short_defs.specs.Moves.{from_short, move_for, moved_for, filled};
ghost use Rattle.exports_short.specs.Shorts.{moved_out};

use exports_short::MovedOut;

// Moves short records to those of 48 bytes, into the front of out.
#[unsafe(no_mangle)]
pub extern "C" fn lukaripe_records_from_short(records: &[u8], out: &mut [u8]) -> MovedOut
    ensures value { result ≡ moved_out (moved_for from_short records.now (length out.old)) }
    ensures out_after { out.new ≡ filled (move_for from_short records.now (length out.old)) out.old }
{
    let answer = moves_back::records_from_short(records, out);
    MovedOut::from(answer)
}
