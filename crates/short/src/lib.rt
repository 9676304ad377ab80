// Records of 32 bytes, short ones (document 02, request 6): the form of a layout's record without the bytes that are always 0.
#![tactic(auto)]

ghost use Rattle.std.specs.Prelude.{◌≡◌, ◌≤◌, ◌<◌, leb, length};
ghost use Rattle.std.proofs.lemmas.List.Edits.{sets};
ghost use Rattle.util_defs.specs.Width.{M};
ghost use Rattle.util_defs.specs.Refusal.{unless, Meets};
ghost use Rattle.layout.specs.View.{layout_of, layout_says};
ghost use Rattle.record_defs.specs.Record.{words_of, words_layout};
ghost use Rattle.record.specs.View.{words_in, encode_says};
ghost use Rattle.short_defs.specs.Short.{exponent_of, short_of, words_from, short_at, short_bytes, from_short_causes};
ghost use Rattle.short_defs.specs.Short.{decode_short_causes, decode_short_for, DecodesShort, encode_short_words_for};
ghost use Rattle.short_defs.specs.Short.{encoded_short_words_into, encode_short_for, encoded_short_into};
ghost use Rattle.short_defs.proofs.Fields.{Holds};
ghost use Rattle.short.specs.View.{short_in};

use layout::{DstLayout, SizeInfo, ValidLayout};
use record::{GREATEST_KIND, Words};
use util::{Align, Refusal};

// The fields of a short record. The last four share its last eight bytes.
#[derive(Clone, Copy)]
struct Short {
    size: u64,
    offset: u64,
    elem_size: u64,
    word: u64,
    power: u64,
    kind: u64,
    spare: u64,
}

// The bytes of a short record.
pub const SHORT_BYTES: usize = 32;

// The greatest rounding word and the greatest power that it has.
pub const GREATEST_WORD: u64 = 0xffff_ffff;

pub const GREATEST_POWER: u64 = 63;

// The power of an alignment.
fn power_of(align: Align) -> u64
    ensures { result ≡ exponent_of 64 align.value }
{
    (63 - align.value.leading_zeros()) as u64
}

// The short form of a layout's record. No From, as of the words below, beside which it reads.
fn short_of(valid: ValidLayout) -> Short
    ensures { short_in result ≡ short_of (words_of (layout_of valid.layout)) }
{
    let words = record::words_from_layout(valid.layout);
    Short {
        size: words.size,
        offset: words.offset,
        elem_size: words.elem_size,
        word: words.word,
        power: power_of(valid.align()),
        kind: words.kind,
        spare: 0,
    }
}

// The words of a short record. No From: of what is read a power may be above the greatest.
fn words_of(r: Short) -> Words
    requires { r.power ≤ 63 }
    ensures { words_in result ≡ words_from (short_in r) }
{
    Words {
        align: 1 << r.power,
        kind: r.kind,
        size: r.size,
        offset: r.offset,
        elem_size: r.elem_size,
        word: r.word,
    }
}

// The fields of a short record. The compiler makes one load of the last eight bytes, and shifts.
fn read_short(s: &[u8]) -> Short
    requires { 32 ≤ length s.now }
    ensures { short_in result ≡ short_at s.now 0 }
{
    let last = words::read_word(s, 24);
    Short {
        size: words::read_word(s, 0),
        offset: words::read_word(s, 8),
        elem_size: words::read_word(s, 16),
        word: last % 0x1_0000_0000,
        power: last / 0x1_0000_0000 % 0x100,
        kind: last / 0x100_0000_0000 % 0x100,
        spare: last / 0x1_0000_0000_0000,
    }
}

fn put_short(out: &mut [u8], r: Short)
    requires { (32 ≤ length out.old) × Holds (short_in r) }
    ensures { out.new ≡ sets out.old 0 (short_bytes (short_in r)) }
{
    words::put_word(out, 0, r.size);
    words::put_word(out, 8, r.offset);
    words::put_word(out, 16, r.elem_size);
    let last = r.word + 0x1_0000_0000 * (r.power + 0x100 * (r.kind + 0x100 * r.spare));
    words::put_word(out, 24, last);
}

// The layout of the fields of a short record, tested in the order of document 02. An alignment by its power is never refused.
fn layout_from_short(r: Short) -> Result<DstLayout<u64>, Refusal>
    ensures { layout_says result ≡ unless (from_short_causes (short_in r)) (words_layout (words_from (short_in r))) }
{
    if r.kind > GREATEST_KIND {
        return Err(Refusal::Kind);
    }
    if r.spare != 0 {
        return Err(Refusal::SpareOrPower);
    }
    if r.power > GREATEST_POWER {
        return Err(Refusal::SpareOrPower);
    }
    record::layout_from_words(words_of(r))
}

// The layout of a short record.
pub fn decode_short(s: &[u8]) -> Result<DstLayout<u64>, Refusal>
    ensures answer { layout_says result ≡ decode_short_for s.now }
    ensures meaning { Meets (decode_short_causes s.now) (DecodesShort s.now) (layout_says result) }
{
    if s.len() == SHORT_BYTES {
        layout_from_short(read_short(s))
    } else {
        Err(Refusal::RecordLength)
    }
}

// Whether the rounding word of a layout, if it has one, is held in 32 bits.
pub fn fits_short(l: DstLayout<u64>) -> bool
    ensures { result ≡ leb (words_of (layout_of l)).word (M 32) }
{
    let size_info = l.size_info;
    match size_info {
        SizeInfo::Sized { size: _ } => true,
        SizeInfo::SliceDst(tail) => {
            let word = tail.size_rounding_align_and_phase;
            word.0 <= GREATEST_WORD
        }
    }
}

// The short record of six words, tested as a record's are, into the lent bytes; a refusal leaves them as they were.
pub fn encode_short_words(w: Words, out: &mut [u8]) -> Result<(), Refusal>
    ensures answer { encode_says result ≡ encode_short_words_for (words_in w) (length out.old) }
    ensures bytes { out.new ≡ encoded_short_words_into (words_in w) out.old }
{
    if out.len() == SHORT_BYTES {
        let l = record::layout_from_words(w)?;
        if fits_short(l) {
            put_short(out, short_of(ValidLayout { layout: l }));
            Ok(())
        } else {
            Err(Refusal::WordAboveShort)
        }
    } else {
        Err(Refusal::RecordLength)
    }
}

// The short record of a layout, into the lent bytes; a refusal leaves them as they were.
pub fn encode_short(l: DstLayout<u64>, out: &mut [u8]) -> Result<(), Refusal>
    ensures answer { encode_says result ≡ encode_short_for (layout_of l) (length out.old) }
    ensures bytes { out.new ≡ encoded_short_into (layout_of l) out.old }
{
    encode_short_words(record::words_from_layout(l), out)
}
