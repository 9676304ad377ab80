// The listing: what a member list composes to at either width, as one line of text.
#![tactic(auto)]

ghost use Rattle.std.specs.Prelude.{◌≡◌, ℕ, ◌+◌, ◌≤◌, ◌<◌, ◌^◌, length};
ghost use Rattle.std.proofs.lemmas.List.Edits.{sets};
ghost use Rattle.io.specs.Counts.{IsPrefixLen};
ghost use Rattle.record.specs.View.{words_in};
ghost use Rattle.compose_defs.specs.Compose.{ported, struct_for};
ghost use Rattle.compose.specs.View.{compose_says};
ghost use Rattle.listing_line.specs.Line.{digits_of, token, words_line, refused_text, at_text, refused_line, list_for};
ghost use Rattle.listing_line.specs.Line.{line_length, line_into};

use layout::DstLayout;
use record::Words;
use util::{Refusal, RefusedAt};

// The longest list that is taken.
pub const MAX_LIST_BYTES: usize = 65520;

// The bytes of the longest line: six numbers of 20 digits, and a byte behind each.
pub const LINE_ROOM: usize = 126;

// The most digits that a number of 64 bits has.
const PLACES: usize = 20;

// n in decimal from at on, in at most places digits: the place behind them. Digit by digit: `write!` would want a type of its own
// that writes into the lent bytes, since nothing here has a heap, and a proof that its digits are those of the specs.
fn digits(out: &mut [u8], at: usize, n: u64, places: usize) -> usize
    requires { (n < 10 ^ places) × (0 < places) × (at + places ≤ length out.old) }
    ensures { (result ≡ at + length (digits_of places n)) × (out.new ≡ sets out.old at (digits_of places n)) }
{
    if n < 10 {
        out[at] = 48 + n as u8;
        return at + 1;
    }
    let next = digits(out, at, n / 10, places - 1);
    out[next] = 48 + (n % 10) as u8;
    next + 1
}

// n and a byte behind it: the place behind both.
fn put_token(out: &mut [u8], at: usize, n: u64, c: u8) -> usize
    requires { at + 21 ≤ length out.old }
    ensures value { (result ≡ at + length (token n c)) × (out.new ≡ sets out.old at (token n c)) }
    ensures upper_bound { result ≤ at + 21 }
{
    let next = digits(out, at, n, PLACES);
    out[next] = c;
    next + 1
}

// Six words as one line: its length.
fn put_words(out: &mut [u8], w: Words) -> usize
    requires { 126 ≤ length out.old }
    ensures value { (result ≡ length (words_line (words_in w))) × (out.new ≡ sets out.old 0 (words_line (words_in w))) }
    ensures upper_bound { result ≤ 126 }
{
    let p1 = put_token(out, 0, w.align, b' ');
    let p2 = put_token(out, p1, w.kind, b' ');
    let p3 = put_token(out, p2, w.size, b' ');
    let p4 = put_token(out, p3, w.offset, b' ');
    let p5 = put_token(out, p4, w.elem_size, b' ');
    put_token(out, p5, w.word, b'\n')
}

fn put_refused_text(out: &mut [u8])
    requires { 8 ≤ length out.old }
    ensures { out.new ≡ sets out.old 0 refused_text }
{
    out[..8].copy_from_slice(b"refused ");
}

fn put_at_text(out: &mut [u8], at: usize)
    requires { at + 3 ≤ length out.old }
    ensures { out.new ≡ sets out.old at at_text }
{
    out[at..at + 3].copy_from_slice(b"at ");
}

// A refusal as one line: its length.
fn put_refusal(out: &mut [u8], number: u64, place: u64) -> usize
    requires { 126 ≤ length out.old }
    ensures value { (result ≡ length (refused_line number place)) × (out.new ≡ sets out.old 0 (refused_line number place)) }
    ensures upper_bound { result ≤ 126 }
{
    put_refused_text(out);
    let at = put_token(out, 8, number, b' ');
    put_at_text(out, at);
    put_token(out, at + 3, place, b'\n')
}

// A composition of 32 bits as one of 64. No From: neither the trait nor a type of the impl would be of this crate.
fn wide_composed(
    answer: Result<DstLayout<u32>, RefusedAt<u64>>,
) -> Result<DstLayout<u64>, RefusedAt<u64>>
    ensures { compose_says result ≡ compose_says answer }
{
    answer.map(layouts32::wide_layout)
}

// The composition at a width, by the type of its numbers, without alignment or packing. Not `Lists`, whose layout at 32 bits has
// no words.
pub trait Listed {
    ghost bits: { ℕ };

    fn compose(list: &[u8]) -> Result<DstLayout<u64>, RefusedAt<u64>>
        ensures { compose_says result ≡ struct_for bits ported 0 0 list.now };
}

impl Listed for u64 {
    ghost bits = { 64 };

    fn compose(list: &[u8]) -> Result<DstLayout<u64>, RefusedAt<u64>> {
        compose::for_repr_c_struct::<u64>(0, 0, list)
    }
}

impl Listed for u32 {
    ghost bits = { 32 };

    fn compose(list: &[u8]) -> Result<DstLayout<u64>, RefusedAt<u64>> {
        wide_composed(compose::for_repr_c_struct::<u32>(0, 0, list))
    }
}

// What the members compose to; a list that is too long is refused.
fn compose_list<W: Listed>(list: &[u8]) -> Result<DstLayout<u64>, RefusedAt<u64>>
    ensures { compose_says result ≡ list_for W.bits list.now }
{
    if list.len() > MAX_LIST_BYTES {
        Err(RefusedAt {
            refusal: Refusal::RecordLength,
            place: 0,
        })
    } else {
        W::compose(list)
    }
}

// Writes the line of a member list and gives its length; into fewer than LINE_ROOM bytes it writes nothing and gives 0.
pub fn line<W: Listed>(list: &[u8], out: &mut [u8]) -> usize
    ensures answer { result ≡ line_length W.bits list.now out.old }
    ensures bytes { out.new ≡ line_into W.bits list.now out.old }
    ensures within { IsPrefixLen result out.new }
{
    if out.len() < LINE_ROOM {
        return 0;
    }
    match compose_list::<W>(list) {
        Ok(l) => put_words(out, record::words_from_layout(l)),
        Err(at) => put_refusal(out, at.refusal.number(), at.place),
    }
}
