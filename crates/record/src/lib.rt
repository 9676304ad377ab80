// Records of layouts.
#![tactic(auto)]

ghost use Rattle.std.specs.Prelude.{◌≡◌, cond, ◌&&◌, ◌+◌, ◌≤◌, ◌<◌, eqb, length};
ghost use Rattle.std.proofs.lemmas.List.Edits.{sets};
ghost use Rattle.util_defs.specs.Refusal.{Meets};
ghost use Rattle.layout.specs.View.{layout_of, layout_says};
ghost use Rattle.record_defs.specs.Record.{words_at, record_bytes, words_of, words_causes, record_causes, words_for};
ghost use Rattle.record_defs.specs.Record.{own_for, decode_for, Decodes};
ghost use Rattle.record_defs.specs.Record.{encode_for, encoded_into, encode_words_for, encoded_words_into};
ghost use Rattle.record.specs.View.{words_in, encode_says};

use layout::{DstLayout, SizeInfo};
use rounding::RoundingAlignAndPhase;
use trailing::TrailingSliceLayout;
use util::Refusal;

// The six words of a record.
#[derive(Clone, Copy)]
pub struct Words {
    pub align: u64,
    pub kind: u64,
    // The size of a fixed layout, the base of a trailing one.
    pub size: u64,
    // From here on 0 when fixed.
    pub offset: u64,
    pub elem_size: u64,
    pub word: u64,
}

// The bytes of a record.
pub const RECORD_BYTES: usize = 48;

// The kind of a record: one of these two, 1 more with the mark, and 4 more with an alignment modifier. Numbers and no enum, since
// the papers give them, and a record may have any.
pub const KIND_FIXED: u64 = 0;

pub const KIND_TRAILING: u64 = 2;

pub const GREATEST_KIND: u64 = 7;

// A fixed record has nothing after its size.
fn later_words_zero(offset: u64, elem_size: u64, word: u64) -> bool
    ensures { result ≡ (eqb offset 0 && (eqb elem_size 0 && eqb word 0)) }
{
    offset == 0 && elem_size == 0 && word == 0
}

// The layout of the six words of a record. The tests stand in one function, in the order of the papers: the compiler then
// knows of an accepted layout what was tested, wherever this is inlined. No TryFrom: its promise has two clauses, by name, and an
// impl has one.
pub fn layout_from_words(words: Words) -> Result<DstLayout<u64>, Refusal>
    ensures answer { layout_says result ≡ words_for 64 (words_in words) }
    ensures meaning { Meets (words_causes 64 (words_in words)) (Decodes (words_in words)) (layout_says result) }
{
    let align = words.align;
    let kind = words.kind;
    let word = words.word;
    if kind > GREATEST_KIND {
        return Err(Refusal::Kind);
    }
    if util::is_power_of_two(align) {
        let unpadded = kind % 2 == 1;
        let align_modifier = kind / 4 % 2 == 1;
        if kind / 2 % 2 == 0 {
            if later_words_zero(words.offset, words.elem_size, word) {
                return Ok(DstLayout {
                    align,
                    size_info: SizeInfo::Sized { size: words.size },
                    statically_shallow_unpadded: unpadded,
                    align_modifier,
                });
            }
            return Err(Refusal::FixedRecord);
        }
        if word == 0 {
            return Err(Refusal::RoundingWordZero);
        }
        return Ok(DstLayout {
            align,
            size_info: SizeInfo::SliceDst(TrailingSliceLayout {
                offset: words.offset,
                elem_size: words.elem_size,
                size_base: words.size,
                size_rounding_align_and_phase: RoundingAlignAndPhase(word),
            }),
            statically_shallow_unpadded: unpadded,
            align_modifier,
        });
    }
    Err(Refusal::AlignNotPowerOfTwo)
}

fn marked_kind(kind: u64, unpadded: bool, align_modifier: bool) -> u64
    requires { kind < 3 }
    ensures { result ≡ kind + cond unpadded 1 0 + cond align_modifier 4 0 }
{
    if unpadded {
        if align_modifier { kind + 5 } else { kind + 1 }
    } else if align_modifier {
        kind + 4
    } else {
        kind
    }
}

// The six words of a layout's record. A function and no From, as the way there is.
pub fn words_from_layout(l: DstLayout<u64>) -> Words
    ensures { words_in result ≡ words_of (layout_of l) }
{
    let size_info = l.size_info;
    match size_info {
        SizeInfo::Sized { size } => Words {
            align: l.align,
            kind: marked_kind(KIND_FIXED, l.statically_shallow_unpadded, l.align_modifier),
            size,
            offset: 0,
            elem_size: 0,
            word: 0,
        },
        SizeInfo::SliceDst(tail) => {
            let word = tail.size_rounding_align_and_phase;
            Words {
                align: l.align,
                kind: marked_kind(
                    KIND_TRAILING,
                    l.statically_shallow_unpadded,
                    l.align_modifier,
                ),
                size: tail.size_base,
                offset: tail.offset,
                elem_size: tail.elem_size,
                word: word.0,
            }
        }
    }
}

// The six words of a record.
fn read_words(s: &[u8]) -> Words
    requires { 48 ≤ length s.now }
    ensures { words_in result ≡ words_at s.now 0 }
{
    Words {
        align: words::read_word(s, 0),
        kind: words::read_word(s, 8),
        size: words::read_word(s, 16),
        offset: words::read_word(s, 24),
        elem_size: words::read_word(s, 32),
        word: words::read_word(s, 40),
    }
}

// The layout of a record. Words of 64 bits hold every number of it, so its own tests are all that can refuse it.
pub fn decode(s: &[u8]) -> Result<DstLayout<u64>, Refusal>
    ensures answer { layout_says result ≡ decode_for 64 s.now }
    ensures meaning { Meets (record_causes 64 s.now) (Decodes (words_at s.now 0)) (layout_says result) }
    ensures own { layout_says result ≡ own_for s.now }
{
    if s.len() == RECORD_BYTES {
        layout_from_words(read_words(s))
    } else {
        Err(Refusal::RecordLength)
    }
}

fn put_words(out: &mut [u8], r: Words)
    requires { 48 ≤ length out.old }
    ensures { out.new ≡ sets out.old 0 (record_bytes (words_in r)) }
{
    words::put_word(out, 0, r.align);
    words::put_word(out, 8, r.kind);
    words::put_word(out, 16, r.size);
    words::put_word(out, 24, r.offset);
    words::put_word(out, 32, r.elem_size);
    words::put_word(out, 40, r.word);
}

// The record of six words, tested as a record's are, into the lent bytes; a refusal leaves them as they were.
pub fn encode_words(w: Words, out: &mut [u8]) -> Result<(), Refusal>
    ensures answer { encode_says result ≡ encode_words_for 64 (words_in w) (length out.old) }
    ensures bytes { out.new ≡ encoded_words_into 64 (words_in w) out.old }
{
    if out.len() == RECORD_BYTES {
        // The words of the layout are those given, but moved one by one: of those given the compiler would load two at once,
        // and wait for the caller's stores of them.
        let l = layout_from_words(w)?;
        put_words(out, words_from_layout(l));
        Ok(())
    } else {
        Err(Refusal::RecordLength)
    }
}

// The record of a layout, into the lent bytes; a refusal leaves them as they were.
pub fn encode(l: DstLayout<u64>, out: &mut [u8]) -> Result<(), Refusal>
    ensures answer { encode_says result ≡ encode_for 64 (layout_of l) (length out.old) }
    ensures bytes { out.new ≡ encoded_into 64 (layout_of l) out.old }
{
    encode_words(words_from_layout(l), out)
}
