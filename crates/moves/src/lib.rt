// Lists of records moved between their forms of 48 bytes and of 32, between two lent buffers (document 02, request 6): what a way
// to move records is, the move of a list either way, and the way to short records. The whole list is tested first, so that
// nothing is written where it is refused.
#![tactic(auto)]

ghost use Rattle.std.specs.Prelude.{◌≡◌, refl, ℕ, List, ◌*◌, ◌/◌, ◌%◌, ◌≤◌, ◌<◌, length};
ghost use Rattle.std.proofs.Common.{rules};
ghost use Rattle.util_defs.specs.Refusal.{answered};
ghost use Rattle.util_defs.specs.Placed.{reached, judged};
ghost use Rattle.layout.specs.View.{check_says};
ghost use Rattle.short_defs.specs.Moves.{Way, to_short, count_of, length_causes, tested, moved_all, move_for, moved_for, filled};
ghost use Rattle.short_defs.specs.Trips.{Shortened, MoveMeans};
ghost use Rattle.short_defs.proofs.Meaning.{Proper};
ghost use Rattle.short_defs.proofs.Ways.{short_proper};
ghost use Rattle.moves.specs.View.{test_says, move_says};

use record::RECORD_BYTES;
use short::SHORT_BYTES;
use util::{Refusal, RefusedAt};

// A way to move records: what is tested of one, and what is written for it.
pub trait RecordMove {
    // The bytes of a record, and of its other form.
    const FROM: usize;

    const TO: usize;

    ghost FROM: { ℕ };

    ghost TO: { ℕ };

    // The way, and the two forms of a record.
    ghost way: { Way };

    ghost forms: { List ℕ → List ℕ → Type 0 };

    // Whether a record can be moved.
    fn test(s: &[u8]) -> Result<(), Refusal>
        ensures { length s.now ≡ way.from → check_says result ≡ judged (way.causes s.now) };

    // Writes the other form of a record that was accepted: nothing is tested again, and of other bytes nothing is said.
    fn write(s: &[u8], out: &mut [u8])
        ensures { ((length s.now ≡ way.from) × (length out.old ≡ way.to)) × (judged (way.causes s.now) ≡ answered tt)
            → out.new ≡ way.moved s.now };

    ghost proper: { Proper way forms };

    ghost from_is: { FROM ≡ way.from };

    ghost to_is: { TO ≡ way.to };

    ghost to_positive: { 0 < way.to };
}

fn test_records<W: RecordMove>(records: &[u8]) -> Result<(), RefusedAt<u64>>
    ensures { test_says result ≡ tested W.way 0 (count_of W.way records.now) records.now }
{
    for (i, record) in records.chunks_exact(W::FROM).enumerate() {
        W::test(record).map_err(|refusal| RefusedAt {
            refusal,
            place: i as u64,
        })?;
    }
    Ok(())
}

// Writes the other forms of records that are all accepted, one behind the other.
fn write_records<W: RecordMove>(records: &[u8], out: &mut [u8])
    requires { (tested W.way 0 (count_of W.way records.now) records.now ≡ reached tt)
        × (count_of W.way records.now * W.way.to ≤ length out.old) }
    ensures { out.new ≡ filled (reached (moved_all W.way (count_of W.way records.now) records.now)) out.old }
{
    let count = records.len() / W::FROM;
    // By an index: over `chunks_exact` zipped with `chunks_exact_mut` the proof of what is written back did not close.
    for i in 0..count {
        let at = i * W::FROM;
        let to = i * W::TO;
        W::write(&records[at..at + W::FROM], &mut out[to..to + W::TO]);
    }
}

// The move of whole records that the output can hold.
fn moved<W: RecordMove>(records: &[u8], out: &mut [u8]) -> Result<u64, RefusedAt<u64>>
    requires { judged (length_causes W.way records.now (length out.old)) ≡ answered tt }
    ensures result_value { move_says result ≡ moved_for W.way records.now (length out.old) }
    ensures out_after { out.new ≡ filled (move_for W.way records.now (length out.old)) out.old }
{
    test_records::<W>(records)?;
    write_records::<W>(records, out);
    let count = records.len() / W::FROM;
    Ok((count * W::TO) as u64)
}

// Moves records into the front of out; behind them it stays as it was. The lengths are compared by a division: the bytes that are
// needed can pass the greatest number.
pub fn move_records<W: RecordMove>(records: &[u8], out: &mut [u8]) -> Result<u64, RefusedAt<u64>>
    ensures answer { move_says result ≡ moved_for W.way records.now (length out.old) }
    ensures bytes { out.new ≡ filled (move_for W.way records.now (length out.old)) out.old }
    ensures meaning { MoveMeans W.way W.forms records.now out.old out.new (move_says result) }
{
    if records.len() % W::FROM == 0 {
        if out.len() / W::TO < records.len() / W::FROM {
            Err(RefusedAt {
                refusal: Refusal::OutputShort,
                place: 0,
            })
        } else {
            moved::<W>(records, out)
        }
    } else {
        Err(RefusedAt {
            refusal: Refusal::RecordLength,
            place: 0,
        })
    }
}

// From records of 48 bytes to short ones.
struct ToShort;

impl RecordMove for ToShort {
    const FROM: usize = RECORD_BYTES;

    const TO: usize = SHORT_BYTES;

    ghost FROM = { 48 };

    ghost TO = { 32 };

    ghost way = { to_short };

    ghost forms = { Shortened };

    fn test(s: &[u8]) -> Result<(), Refusal> {
        let l = record::decode(s)?;
        if short::fits_short(l) {
            Ok(())
        } else {
            Err(Refusal::WordAboveShort)
        }
    }

    // The words go from load to store. What wraps is of bytes that are no accepted record.
    fn write(s: &[u8], out: &mut [u8]) {
        let power = 63u32.wrapping_sub(u64::leading_zeros(words::read_word(s, 0))) as u64;
        let word = words::read_word(s, 40);
        let high = power.wrapping_add(words::read_word(s, 8).wrapping_mul(0x100));
        let last = word.wrapping_add(high.wrapping_mul(0x1_0000_0000));
        words::put_word(out, 0, words::read_word(s, 16));
        words::put_word(out, 8, words::read_word(s, 24));
        words::put_word(out, 16, words::read_word(s, 32));
        words::put_word(out, 24, last);
    }

    ghost proper = { short_proper };

    ghost from_is = { refl };

    ghost to_is = { refl };

    ghost to_positive = { Prim.search rules };
}

// Moves records of 48 bytes to short ones, into the front of out; behind them it stays as it was.
pub fn records_to_short(records: &[u8], out: &mut [u8]) -> Result<u64, RefusedAt<u64>>
    ensures answer { move_says result ≡ moved_for to_short records.now (length out.old) }
    ensures bytes { out.new ≡ filled (move_for to_short records.now (length out.old)) out.old }
    ensures meaning { MoveMeans to_short Shortened records.now out.old out.new (move_says result) }
{
    move_records::<ToShort>(records, out)
}
