// The composition of a list of member records, after zerocopy's for_repr_c_struct, and a strict one beside it. Both are one: the
// strict one heeds alignment modifiers. What the ported one is called with, false, the compiler carries into its loop. One text
// serves both widths; at 64 bits the loop keeps in registers what a member with a size needs.
#![tactic(auto)]

ghost use Rattle.std.specs.Prelude.{◌≡◌, true, ◌&&◌, ◌/◌, length};
ghost use Rattle.util_defs.specs.Power.{power_of_two};
ghost use Rattle.util_defs.specs.Refusal.{answered};
ghost use Rattle.util.specs.View.{says};
ghost use Rattle.layout.specs.View.{layout_of, sized_of, layout_says};
ghost use Rattle.padding_defs.specs.Pad.{pad_for};
ghost use Rattle.record_defs.specs.Record.{decode_for};
ghost use Rattle.compose_defs.specs.Compose.{composed, and_then, begin_for, member_step, add_members, members_of, members_from};
ghost use Rattle.compose_defs.specs.Compose.{ported, strict, compose_members, compose_for, struct_for};
ghost use Rattle.compose_defs.specs.Strict.{StrictList};
ghost use Rattle.compose.specs.View.{composed_says, compose_says};

use layout::{DstLayout, SizeInfo, SizedLayout};
use record::RECORD_BYTES;
use steps::Steps;
use util::{Refusal, RefusedAt};

// Whether one modifier is refused beside the other. `heed`, here and below, is a flag, since the specs have the two ways to
// compose as names of it: `strict` and `ported`. The other parameters are those of the Rust, in its order.
pub fn at_odds(heed: bool, aligned: bool, packed: bool) -> bool
    ensures { result ≡ (heed && (aligned && packed)) }
{
    heed && aligned && packed
}

// The empty layout that a composition begins with.
fn begin<W: Steps>(heed: bool, repr_align: W, repr_packed: W) -> Result<DstLayout<W>, Refusal>
    ensures { says W.layout result ≡ begin_for W.bits heed (W.number repr_align) (W.number repr_packed) }
{
    let empty = W::new_zst(repr_align)?;
    if at_odds(heed, repr_align.wide() != 0, repr_packed.wide() != 0) {
        Err(Refusal::AlignAndPacked)
    } else {
        Ok(empty)
    }
}

// The layout with one member more, whose record is given.
fn member_step<W: Steps>(
    l: DstLayout<W>,
    heed: bool,
    repr_packed: W,
    member: &[u8],
) -> Result<DstLayout<W>, Refusal>
    ensures { says W.layout result
        ≡ member_step W.bits heed (W.number repr_packed) (W.layout l) (decode_for W.bits member.now) }
{
    let field = W::decode(member)?;
    if at_odds(heed, repr_packed.wide() != 0, field.align_modifier) {
        Err(Refusal::AlignModifierInPacked)
    } else {
        W::extend(l, field, repr_packed)
    }
}

// The step of a member with a size onto a layout with a size, whose alignment is not tested again. That it is a power of two is a
// clause of this function and two more: with a type that keeps it, and an enum of the two kinds for the step's answer, a
// composition of eight members took 1.15 times the instructions (611 for 531).
fn step_of_sized(
    own: SizedLayout,
    heed: bool,
    repr_packed: u64,
    field: DstLayout<u64>,
) -> Result<DstLayout<u64>, Refusal>
    requires { power_of_two 64 own.align ≡ true }
    ensures { layout_says result ≡ member_step 64 heed repr_packed (sized_of own) (answered (layout_of field)) }
{
    if at_odds(heed, repr_packed != 0, field.align_modifier) {
        Err(Refusal::AlignModifierInPacked)
    } else {
        extend::extend_onto(own, field, repr_packed)
    }
}

// That of a trailing member.
fn step_of_trailing(
    own: SizedLayout,
    heed: bool,
    repr_packed: u64,
    field: DstLayout<u64>,
) -> Result<DstLayout<u64>, Refusal>
    ensures { layout_says result ≡ member_step 64 heed repr_packed (sized_of own) (answered (layout_of field)) }
{
    if at_odds(heed, repr_packed != 0, field.align_modifier) {
        Err(Refusal::AlignModifierInPacked)
    } else {
        extend::extend_sized(own, field, repr_packed)
    }
}

// The layout with one member more of a layout with a size. The two kinds go apart, so that the loop below keeps in registers
// what a member with a size needs and no more.
fn sized_step(
    own: SizedLayout,
    heed: bool,
    repr_packed: u64,
    member: &[u8],
) -> Result<DstLayout<u64>, Refusal>
    requires { power_of_two 64 own.align ≡ true }
    ensures { layout_says result ≡ member_step 64 heed repr_packed (sized_of own) (decode_for 64 member.now) }
{
    let field = record::decode(member)?;
    let size_info = field.size_info;
    match size_info {
        SizeInfo::Sized { size: _ } => step_of_sized(own, heed, repr_packed, field),
        SizeInfo::SliceDst(_) => step_of_trailing(own, heed, repr_packed, field),
    }
}

// Each member in turn from the one at from on, at the end of the layout. This goes on behind a trailing member, where the next
// one is refused.
fn add_members<W: Steps>(
    start: DstLayout<W>,
    heed: bool,
    repr_packed: W,
    members: &[u8],
    from: usize,
) -> Result<DstLayout<W>, RefusedAt<u64>>
    ensures { composed_says W.layout result ≡ add_members (member_step W.bits heed (W.number repr_packed)) from
        (W.layout start) (members_from W.bits from members.now) }
{
    let count = members.len() / RECORD_BYTES;
    let mut l = start;
    // By an index, which is no longer than the chunks: `members.chunks_exact(RECORD_BYTES).enumerate().skip(from)` has the same
    // place beside each record, since the loop begins at one and a refusal gives one.
    for place in from..count {
        let at = place * RECORD_BYTES;
        l = member_step(l, heed, repr_packed, &members[at..at + RECORD_BYTES]).map_err(
            |refusal| RefusedAt {
                refusal,
                place: place as u64,
            },
        )?;
    }
    Ok(l)
}

// Each member in turn at the end of a layout with a size. A trailing member leaves this loop, which so carries four words and
// no whole layout.
fn add_to_sized(
    start: SizedLayout,
    heed: bool,
    repr_packed: u64,
    members: &[u8],
) -> Result<DstLayout<u64>, RefusedAt<u64>>
    requires { power_of_two 64 start.align ≡ true }
    ensures { compose_says result ≡ add_members (member_step 64 heed repr_packed) 0 (sized_of start)
        (members_of 64 (length members.now / 48) members.now) }
{
    let count = members.len() / RECORD_BYTES;
    let mut own = start;
    // By an index: by `chunks_exact` and `enumerate` a composition of ten members takes 888 instructions in place of 582.
    for i in 0..count {
        let at = i * RECORD_BYTES;
        let next = sized_step(own, heed, repr_packed, &members[at..at + RECORD_BYTES]).map_err(
            |refusal| RefusedAt {
                refusal,
                place: i as u64,
            },
        )?;
        let size_info = next.size_info;
        match size_info {
            SizeInfo::Sized { size } => {
                own = next.with_size(size);
            }
            SizeInfo::SliceDst(_) => {
                return add_members(next, heed, repr_packed, members, i + 1);
            }
        }
    }
    Ok(DstLayout::from(own))
}

// The members of whole records at a width, one after the other.
pub trait Lists: Steps {
    fn compose_records(
        heed: bool,
        repr_align: Self,
        repr_packed: Self,
        members: &[u8],
    ) -> Result<DstLayout<Self>, RefusedAt<u64>>
        ensures { composed_says Self.layout result ≡ compose_members Self.bits heed (Self.number repr_align)
            (Self.number repr_packed) (members_of Self.bits (length members.now / 48) members.now) }
    {
        let empty = begin(heed, repr_align, repr_packed).map_err(|refusal| RefusedAt {
            refusal,
            place: 0u64,
        })?;
        add_members(empty, heed, repr_packed, members, 0)
    }
}

impl Lists for u32 {}

// The loop that keeps four words.
impl Lists for u64 {
    fn compose_records(
        heed: bool,
        repr_align: u64,
        repr_packed: u64,
        members: &[u8],
    ) -> Result<DstLayout<u64>, RefusedAt<u64>>
        ensures { compose_says result ≡ compose_members 64 heed repr_align repr_packed
            (members_of 64 (length members.now / 48) members.now) }
    {
        let empty = begin(heed, repr_align, repr_packed).map_err(|refusal| RefusedAt {
            refusal,
            place: 0u64,
        })?;
        add_to_sized(empty.with_size(0), heed, repr_packed, members)
    }
}

// The members of a list one after the other, without padding after the last.
fn compose_list<W: Lists>(
    heed: bool,
    repr_align: W,
    repr_packed: W,
    members: &[u8],
) -> Result<DstLayout<W>, RefusedAt<u64>>
    ensures { composed_says W.layout result
        ≡ compose_for W.bits heed (W.number repr_align) (W.number repr_packed) members.now }
{
    if members.len() % RECORD_BYTES == 0 {
        W::compose_records(heed, repr_align, repr_packed, members)
    } else {
        Err(RefusedAt {
            refusal: Refusal::RecordLength,
            place: 0,
        })
    }
}

// The padding after the last of count members; a refusal of it is placed at their count.
fn pad_composed<W: Steps>(l: DstLayout<W>, count: u64) -> Result<DstLayout<W>, RefusedAt<u64>>
    ensures { composed_says W.layout result ≡ and_then (pad_for W.bits (W.layout l)) count composed }
{
    W::pad_to_align(l).map_err(|refusal| RefusedAt {
        refusal,
        place: count,
    })
}

// The layout of a struct of these members, one after the other, with the padding after the last.
fn struct_of_list<W: Lists>(
    heed: bool,
    repr_align: W,
    repr_packed: W,
    members: &[u8],
) -> Result<DstLayout<W>, RefusedAt<u64>>
    ensures { composed_says W.layout result
        ≡ struct_for W.bits heed (W.number repr_align) (W.number repr_packed) members.now }
{
    let l = compose_list(heed, repr_align, repr_packed, members)?;
    let count = members.len() / RECORD_BYTES;
    pad_composed(l, count as u64)
}

// The members of a list one after the other, without padding after the last.
pub fn compose<W: Lists>(
    repr_align: W,
    repr_packed: W,
    members: &[u8],
) -> Result<DstLayout<W>, RefusedAt<u64>>
    ensures { composed_says W.layout result
        ≡ compose_for W.bits ported (W.number repr_align) (W.number repr_packed) members.now }
{
    compose_list(false, repr_align, repr_packed, members)
}

// The layout of a repr(C) struct with these members.
pub fn for_repr_c_struct<W: Lists>(
    repr_align: W,
    repr_packed: W,
    members: &[u8],
) -> Result<DstLayout<W>, RefusedAt<u64>>
    ensures { composed_says W.layout result
        ≡ struct_for W.bits ported (W.number repr_align) (W.number repr_packed) members.now }
{
    struct_of_list(false, repr_align, repr_packed, members)
}

// The same where the Reference allows it: no alignment modifier together with a packed one, nor inside a packed type.
pub fn for_repr_c_struct_strict<W: Lists>(
    repr_align: W,
    repr_packed: W,
    members: &[u8],
) -> Result<DstLayout<W>, RefusedAt<u64>>
    ensures answer { composed_says W.layout result
        ≡ struct_for W.bits strict (W.number repr_align) (W.number repr_packed) members.now }
    ensures meaning { StrictList W.bits (W.number repr_align) (W.number repr_packed) members.now
        (composed_says W.layout result) }
{
    struct_of_list(true, repr_align, repr_packed, members)
}
