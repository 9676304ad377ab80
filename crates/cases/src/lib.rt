// All short member lists, for a test bench (document 02, request 10): every list of up to a chosen length of u8, u16, u32 and
// u64, each under packing none, 1, 2, 4 and 8, as records of 8 bytes in a lent buffer.
#![tactic(auto)]

ghost use Rattle.std.specs.Prelude.{◌≡◌, ◌+◌, ◌*◌, ◌^◌, ◌≤◌, ◌<◌, length};
ghost use Rattle.std.proofs.lemmas.List.Edits.{sets};
ghost use Rattle.util.specs.View.{number_says};
ghost use Rattle.cases_defs.specs.Cases.{cases_to, list_count, cases_bytes};
ghost use Rattle.cases_defs.specs.Write.{cases_for, count_written, filled_with, WriteMeans};
ghost use Rattle.cases.specs.Grow.{list_bytes, grown_bytes};

use util::Refusal;

// The greatest length of a list, and the bytes of a list under its five packings.
pub const GREATEST_LENGTH: u64 = 6;

const LIST_BYTES: usize = 40;

// The record of no code: every code unused, length and packing 0.
const NO_CODES: u64 = 0xFFFF_FFFF_FFFF_0000;

const FIRST_SLOT: u64 = 2;

// Writes a list, whose record without a packing is word, under each packing.
fn put_list(out: &mut [u8], at: usize, word: u64)
    requires { (at + 40 ≤ length out.old) × (word + 2048 < 2 ^ 64) }
    ensures { out.new ≡ sets out.old at (list_bytes word) }
{
    words::put_word(out, at, word);
    words::put_word(out, at + 8, word + 0x100);
    words::put_word(out, at + 16, word + 0x200);
    words::put_word(out, at + 24, word + 0x400);
    words::put_word(out, at + 32, word + 0x800);
}

// What one in the byte slot of a record is worth.
fn unit_of(slot: u64) -> u64
    requires { slot < 8 }
    ensures { result ≡ 256 ^ slot }
{
    1u64 << (8 * slot)
}

// Writes every list that goes on from the record word, from at on, with so many slots left: the next code is the byte slot, which
// is unused so far. Each of the four codes goes there, before the lists of one slot fewer.
fn grow(out: &mut [u8], at: usize, left: u64, slot: u64, word: u64) -> usize
    requires { (at + 40 * 4 ^ left ≤ length out.old) × (slot + left ≤ 8)
        × (256 ^ (slot + left) ≤ word + 256 ^ slot) × (word + 2048 < 2 ^ 64) }
    ensures { (result ≡ at + 40 * 4 ^ left) × (out.new ≡ sets out.old at (grown_bytes left slot word)) }
{
    if left == 0 {
        put_list(out, at, word);
        return at + LIST_BYTES;
    }
    let unit = unit_of(slot);
    let first = word - 255 * unit;
    let second_at = grow(out, at, left - 1, slot + 1, first);
    let third_at = grow(out, second_at, left - 1, slot + 1, first + unit);
    let fourth_at = grow(out, third_at, left - 1, slot + 1, first + 2 * unit);
    grow(out, fourth_at, left - 1, slot + 1, first + 3 * unit)
}

// Writes every list of up to longest members, the shorter ones first.
fn write_all(longest: u64, out: &mut [u8])
    requires { (longest ≤ 6) × (40 * list_count longest ≤ length out.old) }
    ensures { out.new ≡ sets out.old 0 (cases_bytes (cases_to longest)) }
{
    let mut at = 0;
    for count in 0..=longest {
        at = grow(out, at, count, FIRST_SLOT, NO_CODES + count);
    }
}

// The bytes of all cases: 1 + 4 + .. + 4^longest lists, of which there are a third of 4^(longest + 1) less 1.
fn cases_bytes(longest: u64) -> u64
    requires { longest ≤ 6 }
    ensures { result ≡ 40 * list_count longest }
{
    ((4u64 << (2 * longest)) - 1) / 3 * 40
}

// Writes every list of up to longest members under each packing into the front of out; behind them it stays as it was. The
// answer is the number of bytes written.
pub fn write_cases(longest: u64, out: &mut [u8]) -> Result<u64, Refusal>
    ensures answer { number_says result ≡ count_written (cases_for longest (length out.old)) }
    ensures bytes { out.new ≡ filled_with (cases_for longest (length out.old)) out.old }
    ensures meaning { WriteMeans longest out.old out.new (number_says result) }
{
    if longest > GREATEST_LENGTH {
        return Err(Refusal::ListsTooLong);
    }
    let bytes = cases_bytes(longest);
    if (out.len() as u64) < bytes {
        return Err(Refusal::CasesShort);
    }
    write_all(longest, out);
    Ok(bytes)
}
