// Records of layouts at 32 bits, by those at 64: a record keeps 64-bit fields, and a number that 32 bits do not hold is
// refused after the record's own tests. Each call at 32 bits is a function of its own, and no instance of a generic one: it
// calls that of 64 bits, and widens a layout before or refuses and narrows one after, and at 64 bits there would be none of
// these steps.
#![tactic(auto)]

ghost use Rattle.std.specs.Prelude.{◌≡◌, length};
ghost use Rattle.util_defs.specs.Refusal.{Meets};
ghost use Rattle.layout.specs.View.{layout_says, layout_of};
ghost use Rattle.record_defs.specs.Record.{words_at, fits_in, record_causes, decode_for, fitted, Decodes};
ghost use Rattle.record_defs.specs.Record.{encode_for, encoded_into};
ghost use Rattle.record.specs.View.{words_in, encode_says};

use layout::DstLayout;
use record::Words;
use util::Refusal;

// Whether 32 bits hold the numbers of a record.
pub fn fits(words: Words) -> bool
    ensures { result ≡ fits_in 32 (words_in words) }
{
    words.align <= numbers32::MAX
        && words.size <= numbers32::MAX
        && words.offset <= numbers32::MAX
        && words.elem_size <= numbers32::MAX
        && words.word <= numbers32::MAX
}

// The layout of a record.
pub fn decode(s: &[u8]) -> Result<DstLayout<u32>, Refusal>
    ensures answer { layout_says result ≡ decode_for 32 s.now }
    ensures meaning { Meets (record_causes 32 s.now) (Decodes (words_at s.now 0)) (layout_says result) }
{
    fitting(record::decode(s))
}

// A layout that was read of a record, of either form, at 32 bits.
pub fn fitting(answer: Result<DstLayout<u64>, Refusal>) -> Result<DstLayout<u32>, Refusal>
    ensures { layout_says result ≡ fitted 32 (layout_says answer) }
{
    let layout = answer?;
    if fits(record::words_from_layout(layout)) {
        Ok(layouts32::low_layout(layout))
    } else {
        Err(Refusal::NumberPassesWidth)
    }
}

// The record of a layout, into the lent bytes; a refusal leaves them as they were.
pub fn encode(layout: DstLayout<u32>, out: &mut [u8]) -> Result<(), Refusal>
    ensures answer { encode_says result ≡ encode_for 32 (layout_of layout) (length out.old) }
    ensures bytes { out.new ≡ encoded_into 32 (layout_of layout) out.old }
{
    record::encode(layouts32::wide_layout(layout), out)
}
