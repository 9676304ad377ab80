// Nested type descriptions, read into layouts, at either width by one body. The stack of open parts is that of the calls.
#![tactic(auto)]

ghost use Rattle.std.specs.Prelude.{◌≡◌, ◌^◌, ◌<◌};
ghost use Rattle.util_defs.specs.Placed.{reached, at_place, go_on};
ghost use Rattle.layout.specs.View.{layout_of, layout_says};
ghost use Rattle.width.specs.Width.{bits_of, target_of, width_pad, width_array, Held};
ghost use Rattle.describe_defs.specs.Elements.{slice_of_for};
ghost use Rattle.describe_defs.specs.Describe.{add_read, part_for, described_for};
ghost use Rattle.describe_defs.specs.Heads.{head_at, HeadMeans, made};
ghost use Rattle.describe_defs.specs.Faults.{PartMeans, ReadMeans};
ghost use Rattle.heads.specs.View.{head_says};
ghost use Rattle.describe.specs.View.{stop_of, at_stop, part_says, stop_says, read_says};

use heads::{COUNT_BYTES, PartHead};
use layout::{DstLayout, SizeInfo};
use util::{Refusal, RefusedAt};
use width::AtWidth;

// As many structs, arrays and slices may be open.
pub const MAX_DEPTH: usize = 16;

// The layout of a part that was read, and what comes behind it.
#[derive(Clone, Copy)]
pub struct ReadPart<N> {
    pub layout: DstLayout<N>,
    pub next: usize,
}

// Why and where a part stops. The place stands first: the refusal's one byte lies where an accepted part has the tag of its size.
// Where the alignment lies it would have that written in parts, and the load behind each call would wait for them.
#[derive(Clone, Copy)]
struct Stop {
    place: usize,
    refusal: Refusal,
}

impl From<RefusedAt<usize>> for Stop {
    ghost from_gives = { λ at stop. stop ≡ stop_of at };

    #[inline(always)]
    fn from(at: RefusedAt<usize>) -> Stop {
        Stop {
            place: at.place,
            refusal: at.refusal,
        }
    }
}

impl From<Stop> for RefusedAt<usize> {
    ghost from_gives = { λ stop at. at ≡ at_stop stop };

    #[inline(always)]
    fn from(stop: Stop) -> RefusedAt<usize> {
        RefusedAt {
            refusal: stop.refusal,
            place: stop.place,
        }
    }
}

// The part that ends before next; a refusal of its layout stands at its tag.
fn at_tag(
    answer: Result<DstLayout<u64>, Refusal>,
    next: usize,
    tag: usize,
) -> Result<ReadPart<u64>, Stop>
    ensures { stop_says result ≡ at_place tag (layout_says answer) (λ l. reached (l, next)) }
{
    let layout = answer.map_err(|refusal| Stop {
        place: tag,
        refusal,
    })?;
    Ok(ReadPart { layout, next })
}

// The head of a part.
fn head_of<W: AtWidth>(s: &[u8], at: usize, depth: usize) -> Result<PartHead, RefusedAt<usize>>
    ensures answer { head_says result ≡ head_at (bits_of W.narrow) depth s.now at }
    ensures meaning { HeadMeans (bits_of W.narrow) depth s.now at (head_says result) }
{
    heads::head(W::bits(), s, at, depth)
}

// An array of an element that was read.
fn array_part<W: AtWidth>(
    element: Result<ReadPart<u64>, Stop>,
    count: u64,
    tag: usize,
) -> Result<ReadPart<u64>, Stop>
    ensures { stop_says result ≡ go_on (stop_says element) (made tag (λ l. width_array W.narrow l count)) }
{
    let read = element?;
    at_tag(W::for_array(read.layout, count), read.next, tag)
}

// A slice of it.
fn slice_part(element: Result<ReadPart<u64>, Stop>, tag: usize) -> Result<ReadPart<u64>, Stop>
    ensures { stop_says result ≡ go_on (stop_says element) (made tag (slice_of_for 64)) }
{
    let read = element?;
    at_tag(elements::for_slice_of(read.layout), read.next, tag)
}

// A struct whose members were read: closing padding.
fn struct_part<W: AtWidth>(
    members: Result<ReadPart<u64>, Stop>,
    tag: usize,
) -> Result<ReadPart<u64>, Stop>
    ensures { stop_says result ≡ go_on (stop_says members) (made tag (width_pad W.narrow)) }
{
    let read = members?;
    at_tag(W::pad_to_align(read.layout), read.next, tag)
}

// The part at at, with depth parts more that may be open. It may open a struct.
#[cycle(add_members_part)]
fn read_part<W: AtWidth>(s: &[u8], at: usize, depth: usize) -> Result<ReadPart<u64>, Stop>
    ensures answer { stop_says result ≡ part_for (bits_of W.narrow) (target_of W.narrow) depth s.now at }
    ensures meaning { PartMeans (bits_of W.narrow) (target_of W.narrow) s.now depth at (stop_says result) }
{
    let head = head_of::<W>(s, at, depth)?;
    match head {
        PartHead::Scalar(code) => at_tag(W::scalar(code), at + 1, at),
        PartHead::Array { count } => {
            array_part::<W>(
                read_part::<W>(s, at + 1 + COUNT_BYTES, depth - 1),
                count,
                at,
            )
        }
        PartHead::Struct {
            align,
            packed,
            count,
            first,
        } => {
            let empty = make::new_zst(align).map_err(|refusal| Stop { place: at, refusal })?;
            struct_part::<W>(
                add_members::<W>(s, first, depth - 1, count, empty, packed, at),
                at,
            )
        }
        PartHead::Slice => slice_part(read_part::<W>(s, at + 1, depth - 1), at),
    }
}

// The members of a struct whose tag is at tag, the first one at first: each read whole, then added to the layout. A loop, so that
// the calls are as deep as the parts that are open.
#[cycle(add_members_part)]
fn add_members<W: AtWidth>(
    s: &[u8],
    first: usize,
    depth: usize,
    count: u64,
    empty: DstLayout<u64>,
    packed: u64,
    tag: usize,
) -> Result<ReadPart<u64>, Stop>
    requires { Held W.narrow (layout_of empty) × (packed < 2 ^ bits_of W.narrow) }
    ensures { stop_says result
        ≡ add_read (bits_of W.narrow) (part_for (bits_of W.narrow) (target_of W.narrow) depth s.now) packed tag count
        (layout_of empty) first }
{
    let mut own = empty;
    let mut at = first;
    for _ in 0..count {
        let read = read_part::<W>(s, at, depth)?;
        // Field by field: its two marks are then read as they were written, a byte each. One word of both would wait for them.
        let member = DstLayout { ..read.layout };
        own = W::extend(own, member, packed).map_err(|refusal| Stop {
            place: tag,
            refusal,
        })?;
        at = read.next;
    }
    Ok(ReadPart {
        layout: own,
        next: at,
    })
}

// The part at at, with depth parts more that may be open.
pub fn part<W: AtWidth>(
    s: &[u8],
    at: usize,
    depth: usize,
) -> Result<ReadPart<u64>, RefusedAt<usize>>
    ensures answer { part_says result ≡ part_for (bits_of W.narrow) (target_of W.narrow) depth s.now at }
    ensures meaning { PartMeans (bits_of W.narrow) (target_of W.narrow) s.now depth at (part_says result) }
{
    Ok(read_part::<W>(s, at, depth)?)
}

// The layout that the bytes describe.
pub fn read<W: AtWidth>(description: &[u8]) -> Result<DstLayout<u64>, RefusedAt<u64>>
    ensures answer { read_says result ≡ described_for (bits_of W.narrow) (target_of W.narrow) description.now }
    ensures meaning { ReadMeans (bits_of W.narrow) (target_of W.narrow) description.now (read_says result) }
{
    let ReadPart { layout, next } = part::<W>(description, 0, MAX_DEPTH)?;
    if next == description.len() {
        Ok(layout)
    } else {
        Err(RefusedAt {
            refusal: Refusal::BytesLeftOver,
            place: next as u64,
        })
    }
}
