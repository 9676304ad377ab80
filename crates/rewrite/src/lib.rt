// Descriptions rewritten into a lent output: each struct's member count in two bytes, or in one (document 02, request 8). What is
// read at a width is rewritten alike.
#![tactic(auto)]

ghost use Rattle.std.specs.Prelude.{◌≡◌, true, ◌+◌, ◌≤◌, eqb, leb, length, take, drop, get_or};
ghost use Rattle.std.proofs.lemmas.List.Edits.{sets};
ghost use Rattle.util_defs.specs.Placed.{reached, go_on};
ghost use Rattle.width.specs.Width.{bits_of, target_of};
ghost use Rattle.describe_defs.specs.Describe.{struct_tag, tag_of, described_for};
ghost use Rattle.rewrite_defs.specs.Heads.{behind_tag, heads_of, tags_in};
ghost use Rattle.rewrite_defs.specs.Rewrite.{longer, shorter, from, turned_head, count_above, counts_fit, rewritten};
ghost use Rattle.rewrite_defs.specs.Rewrite.{rewrite_for, bytes_for, filled};
ghost use Rattle.rewrite_defs.specs.Means.{RewriteMeans};
ghost use Rattle.rewrite.specs.View.{way_of, head_at, HeadIn, Whole, tagged, struct_put};
ghost use Rattle.rewrite.specs.View.{Read, length_to, turned_says, rewrite_says};

use heads::{ARRAY_TAG, LONG_STRUCT_TAG, STRUCT_TAG};
use util::{Refusal, RefusedAt};
use width::AtWidth;

// The greatest count of one byte.
const GREATEST_BYTE: u16 = 255;

// The way that member counts are turned: to two bytes, or back to one. A value that the functions match on: of what a trait would
// have for each way, no part is more than a line or two.
#[derive(Clone, Copy)]
enum Way {
    Longer,
    Shorter,
}

// The bytes of a head, by its tag.
fn head_bytes(tag: u8) -> usize
    ensures { result ≡ 1 + behind_tag (tag_of tag) }
{
    match tag {
        STRUCT_TAG => 4,
        ARRAY_TAG | LONG_STRUCT_TAG => 5,
        _ => 1,
    }
}

// Whether a head of this tag is turned.
fn turns(tag: u8, way: Way) -> bool
    ensures { result ≡ eqb tag (struct_tag (from (way_of way))) }
{
    match way {
        Way::Longer => tag == STRUCT_TAG,
        Way::Shorter => tag == LONG_STRUCT_TAG,
    }
}

// Whether the count of a struct that is turned does not fit.
fn count_above(s: &[u8], at: usize, way: Way) -> bool
    requires { HeadIn s.now at × (eqb (get_or s.now at 0) (struct_tag (from (way_of way))) ≡ true) }
    ensures { result ≡ count_above (way_of way) (head_at s.now at) }
{
    match way {
        Way::Longer => false,
        Way::Shorter => u16::from_le_bytes([s[at + 3], s[at + 4]]) > GREATEST_BYTE,
    }
}

// How many heads are turned. A count that does not fit is met before any byte is written.
fn count_turned(s: &[u8], way: Way) -> Result<usize, RefusedAt<u64>>
    requires { Whole s.now }
    ensures { turned_says result ≡ go_on (counts_fit (way_of way) 0 (heads_of s.now))
        (λ _. reached (tags_in (struct_tag (from (way_of way))) s.now)) }
{
    let mut at = 0;
    let mut turned = 0;
    // Heads have lengths of their own, so that the place moves by what was read: no `for` says that.
    while at < s.len() {
        let tag = s[at];
        if turns(tag, way) {
            if count_above(s, at, way) {
                return Err(RefusedAt {
                    refusal: Refusal::CountAboveByte,
                    place: at as u64,
                });
            }
            turned += 1;
        }
        at += head_bytes(tag);
    }
    Ok(turned)
}

// Copies bytes from one place to another. By an index: a head has at most five bytes, and `copy_from_slice` of a number of them
// that is not known before is a slower call of memmove, which the archive for C had to have from outside.
fn copy(s: &[u8], at: usize, count: usize, out: &mut [u8], to: usize)
    requires { (at + count ≤ length s.now) × (to + count ≤ length out.old) }
    ensures { out.new ≡ sets out.old to (take count (drop at s.now)) }
{
    for i in 0..count {
        out[to + i] = s[at + i];
    }
}

// Writes a struct's tag, and its alignment, packing and first count byte behind it. What is read and what is written have a place
// each, here and below, since the one moves by another length than the other.
fn put_tagged(s: &[u8], at: usize, out: &mut [u8], to: usize, tag: u8)
    requires { (at + 4 ≤ length s.now) × (to + 4 ≤ length out.old) }
    ensures { out.new ≡ sets out.old to (tagged tag s.now at) }
{
    out[to] = tag;
    copy(s, at + 1, 3, out, to + 1);
}

// Writes the head of a struct that is turned, and gives the place behind it.
fn put_struct(s: &[u8], at: usize, out: &mut [u8], to: usize, way: Way) -> usize
    requires { (at + 4 ≤ length s.now) × (to + length (struct_put (way_of way) s.now at) ≤ length out.old) }
    ensures { (result ≡ to + length (struct_put (way_of way) s.now at))
        × (out.new ≡ sets out.old to (struct_put (way_of way) s.now at)) }
{
    match way {
        Way::Longer => {
            put_tagged(s, at, out, to, LONG_STRUCT_TAG);
            out[to + 4] = 0;
            to + 5
        }
        Way::Shorter => {
            put_tagged(s, at, out, to, STRUCT_TAG);
            to + 4
        }
    }
}

// Writes a head, turned or as it is, and gives the place behind it.
fn put_head(s: &[u8], at: usize, out: &mut [u8], to: usize, way: Way) -> usize
    requires { HeadIn s.now at × (to + length (turned_head (way_of way) (head_at s.now at)) ≤ length out.old) }
    ensures { (result ≡ to + length (turned_head (way_of way) (head_at s.now at)))
        × (out.new ≡ sets out.old to (turned_head (way_of way) (head_at s.now at))) }
{
    let tag = s[at];
    if turns(tag, way) {
        return put_struct(s, at, out, to, way);
    }
    let count = head_bytes(tag);
    copy(s, at, count, out, to);
    to + count
}

// Writes every head into the front of out.
fn write_heads(s: &[u8], out: &mut [u8], way: Way)
    requires { Whole s.now × (length (rewritten (way_of way) s.now) ≤ length out.old) }
    ensures { out.new ≡ filled (reached (rewritten (way_of way) s.now)) out.old }
{
    let mut at = 0;
    let mut to = 0;
    // As above: the place moves by the length of a head.
    while at < s.len() {
        to = put_head(s, at, out, to, way);
        at += head_bytes(s[at]);
    }
}

// Whether the result has room: a sum of lengths can pass the greatest number, so that they are compared by a difference.
fn has_room(len: usize, turned: usize, room: usize, way: Way) -> bool
    requires { turned ≤ len }
    ensures { result ≡ leb (length_to (way_of way) len turned) room }
{
    match way {
        Way::Longer => len <= room && turned <= room - len,
        Way::Shorter => len - turned <= room,
    }
}

// The rewriting of a description that is read at a width, which the heads then do not hang on.
fn rewrite_read<W: AtWidth>(
    description: &[u8],
    out: &mut [u8],
    way: Way,
) -> Result<u64, RefusedAt<u64>>
    requires { Read (described_for (bits_of W.narrow) (target_of W.narrow) description.now) }
    ensures result_value { rewrite_says result ≡ bytes_for (bits_of W.narrow) (target_of W.narrow) (way_of way) description.now
        (length out.old) }
    ensures out_after { out.new ≡ filled (rewrite_for (bits_of W.narrow) (target_of W.narrow) (way_of way) description.now
        (length out.old)) out.old }
{
    let turned = count_turned(description, way)?;
    let len = description.len();
    if has_room(len, turned, out.len(), way) {
        write_heads(description, out, way);
        let bytes = match way {
            Way::Longer => len + turned,
            Way::Shorter => len - turned,
        };
        Ok(bytes as u64)
    } else {
        Err(RefusedAt {
            refusal: Refusal::RewriteShort,
            place: 0,
        })
    }
}

// The rewriting either way.
fn rewrite<W: AtWidth>(description: &[u8], out: &mut [u8], way: Way) -> Result<u64, RefusedAt<u64>>
    ensures result_value { rewrite_says result ≡ bytes_for (bits_of W.narrow) (target_of W.narrow) (way_of way) description.now
        (length out.old) }
    ensures out_after { out.new ≡ filled (rewrite_for (bits_of W.narrow) (target_of W.narrow) (way_of way) description.now
        (length out.old)) out.old }
{
    describe::read::<W>(description)?;
    rewrite_read::<W>(description, out, way)
}

// Turns every 17 into 19, whose member count has two bytes, into the front of out; behind the result it stays as it was.
pub fn lengthen_counts<W: AtWidth>(
    description: &[u8],
    out: &mut [u8],
) -> Result<u64, RefusedAt<u64>>
    ensures answer { rewrite_says result ≡ bytes_for (bits_of W.narrow) (target_of W.narrow) longer description.now
        (length out.old) }
    ensures bytes { out.new ≡ filled (rewrite_for (bits_of W.narrow) (target_of W.narrow) longer description.now
        (length out.old)) out.old }
    ensures meaning { RewriteMeans (bits_of W.narrow) (target_of W.narrow) longer description.now out.old out.new
        (rewrite_says result) }
{
    rewrite::<W>(description, out, Way::Longer)
}

// Turns every 19 into 17, whose member count has one byte.
pub fn shorten_counts<W: AtWidth>(description: &[u8], out: &mut [u8]) -> Result<u64, RefusedAt<u64>>
    ensures answer { rewrite_says result ≡ bytes_for (bits_of W.narrow) (target_of W.narrow) shorter description.now
        (length out.old) }
    ensures bytes { out.new ≡ filled (rewrite_for (bits_of W.narrow) (target_of W.narrow) shorter description.now
        (length out.old)) out.old }
    ensures meaning { RewriteMeans (bits_of W.narrow) (target_of W.narrow) shorter description.now out.old out.new
        (rewrite_says result) }
{
    rewrite::<W>(description, out, Way::Shorter)
}
