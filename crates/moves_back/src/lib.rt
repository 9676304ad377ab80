// Lists of short records moved back to those of 48 bytes (document 02, request 6): the way back, by which `moves` moves a list.
#![tactic(auto)]

ghost use Rattle.std.specs.Prelude.{◌≡◌, refl, length};
ghost use Rattle.std.proofs.Common.{rules};
ghost use Rattle.short_defs.specs.Moves.{from_short, move_for, moved_for, filled};
ghost use Rattle.short_defs.specs.Trips.{Widened, MoveMeans};
ghost use Rattle.short_defs.proofs.Ways.{wide_proper};
ghost use Rattle.moves.specs.View.{move_says};

use moves::RecordMove;
use record::RECORD_BYTES;
use short::SHORT_BYTES;
use util::{Refusal, RefusedAt};

// From short records to those of 48 bytes.
struct FromShort;

impl RecordMove for FromShort {
    const FROM: usize = SHORT_BYTES;

    const TO: usize = RECORD_BYTES;

    ghost FROM = { 32 };

    ghost TO = { 48 };

    ghost way = { from_short };

    ghost forms = { Widened };

    #[inline(always)]
    fn test(s: &[u8]) -> Result<(), Refusal> {
        short::decode_short(s)?;
        Ok(())
    }

    // A power above 63, which wraps, is of bytes that are no accepted record.
    fn write(s: &[u8], out: &mut [u8]) {
        let last = words::read_word(s, 24);
        let power = (last / 0x1_0000_0000 % 0x100) as u32;
        words::put_word(out, 0, 1u64.wrapping_shl(power));
        words::put_word(out, 8, last / 0x100_0000_0000 % 0x100);
        words::put_word(out, 16, words::read_word(s, 0));
        words::put_word(out, 24, words::read_word(s, 8));
        words::put_word(out, 32, words::read_word(s, 16));
        words::put_word(out, 40, last % 0x1_0000_0000);
    }

    ghost proper = { wide_proper };

    ghost from_is = { refl };

    ghost to_is = { refl };

    ghost to_positive = { Prim.search rules };
}

// Moves short records to those of 48 bytes, into the front of out; behind them it stays as it was.
pub fn records_from_short(records: &[u8], out: &mut [u8]) -> Result<u64, RefusedAt<u64>>
    ensures answer { move_says result ≡ moved_for from_short records.now (length out.old) }
    ensures bytes { out.new ≡ filled (move_for from_short records.now (length out.old)) out.old }
    ensures meaning { MoveMeans from_short Widened records.now out.old out.new (move_says result) }
{
    moves::move_records::<FromShort>(records, out)
}
