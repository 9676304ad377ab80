// The composition of a list of member records, at either width, that also writes where each member landed. The members are
// composed first, so that nothing is written where they are refused; then their places are worked out once more, in the same
// order.
#![tactic(auto)]

ghost use Rattle.std.specs.Prelude.{◌≡◌, ◌/◌, ◌%◌, ◌&&◌, length, ◌==◌};
ghost use Rattle.util_defs.specs.Refusal.{answered};
ghost use Rattle.layout_defs.specs.Layout.{Layout};
ghost use Rattle.layout_defs.specs.Extend.{member_align};
ghost use Rattle.make.specs.Make.{empty_layout};
ghost use Rattle.record_defs.specs.Record.{decode_for};
ghost use Rattle.compose_defs.specs.Compose.{ported, compose_struct};
ghost use Rattle.compose_defs.specs.Places.{listed, places_of, gaps_of, places_for, written};
ghost use Rattle.compose_defs.specs.Places.{Lands, Composes, ListPlacesMean};
ghost use Rattle.steps.specs.End.{end_in};
ghost use Rattle.compose.specs.View.{composed_says};

use compose::Lists;
use layout::{DstLayout, SizeInfo};
use record::RECORD_BYTES;
use steps::Steps;
use util::{Refusal, RefusedAt};

// Where a member lands, the gap before it, and where it ends, which is worked out at 64 bits.
#[derive(Clone, Copy)]
struct Spot<W> {
    place: W,
    gap: W,
    end: u64,
}

// A member's alignment: the packing lowers it. That of the member step refuses a packing and gives a type; here both were tested.
fn packed_align(align: u64, repr_packed: u64) -> u64
    ensures { result ≡ member_align align repr_packed }
{
    if repr_packed == 0 {
        align
    } else {
        align.min(repr_packed)
    }
}

// Where a member ends that stands at 0: a trailing one at its base, and none comes after it.
fn end_of<N: Copy>(size_info: SizeInfo<N>) -> N
    ensures { result ≡ end_in size_info }
{
    match size_info {
        SizeInfo::Sized { size } => size,
        SizeInfo::SliceDst(tail) => tail.size_base,
    }
}

// Where a member lands behind an end. Of members that compose nothing wraps, and no low bits are other than the number.
fn land<W: Steps>(end: u64, repr_packed: u64, field: DstLayout<W>) -> Spot<W>
    ensures { Lands W.bits repr_packed end (W.layout field) (W.number result.place) (W.number result.gap) result.end }
{
    let size_info = field.size_info;
    match layout::round_up(end, packed_align(field.align.wide(), repr_packed)) {
        Ok(place) => Spot {
            place: W::low(place),
            gap: W::low(place - end),
            end: place.wrapping_add(end_of(size_info).wide()),
        },
        Err(_) => Spot {
            place: W::low(end),
            gap: W::low(0),
            end,
        },
    }
}

// The same of its record.
fn land_record<W: Steps>(end: u64, repr_packed: u64, member: &[u8]) -> Spot<W>
    ensures { (m : Layout) → decode_for W.bits member.now ≡ answered m
        → Lands W.bits repr_packed end m (W.number result.place) (W.number result.gap) result.end }
{
    match W::decode(member) {
        Ok(field) => land(end, repr_packed, field),
        Err(_) => Spot {
            place: W::low(end),
            gap: W::low(0),
            end,
        },
    }
}

// Writes the place of each member and the gap before it, of members that compose. C lends them as two slices, here and below
// behind the parameters of a composition.
fn write_places<W: Steps>(
    repr_align: W,
    repr_packed: W,
    members: &[u8],
    places: &mut [W],
    gaps: &mut [W],
)
    requires { Composes W.bits (W.number repr_align) (W.number repr_packed) (listed W.bits members.now)
        × ((length places.old ≡ length members.now / 48) × (length gaps.old ≡ length members.now / 48)) }
    ensures places_after { W.numbers places.new
        ≡ places_of (W.number repr_packed) (empty_layout (W.number repr_align)) (listed W.bits members.now) }
    ensures gaps_after { W.numbers gaps.new
        ≡ gaps_of (W.number repr_packed) (empty_layout (W.number repr_align)) (listed W.bits members.now) }
{
    let count = members.len() / RECORD_BYTES;
    let mut end = 0;
    // By an index: by `chunks_exact` and `enumerate` a call with 64 members takes 7402 instructions in place of 6948.
    for i in 0..count {
        let at = i * RECORD_BYTES;
        let spot = land_record(end, repr_packed.wide(), &members[at..at + RECORD_BYTES]);
        places[i] = spot.place;
        gaps[i] = spot.gap;
        end = spot.end;
    }
}

// Whether two lengths are that of the list.
pub fn both_are(places: usize, gaps: usize, count: usize) -> bool
    ensures { result ≡ (places == count && gaps == count) }
{
    places == count && gaps == count
}

// The composition of whole records, of which slices of the right lengths are lent.
fn compose_and_write<W: Lists>(
    repr_align: W,
    repr_packed: W,
    members: &[u8],
    places: &mut [W],
    gaps: &mut [W],
) -> Result<DstLayout<W>, RefusedAt<u64>>
    requires { (length members.now % 48 ≡ 0)
        × ((length places.old ≡ length members.now / 48) × (length gaps.old ≡ length members.now / 48)) }
    ensures result_value { composed_says W.layout result
        ≡ compose_struct W.bits ported (W.number repr_align) (W.number repr_packed) (listed W.bits members.now) }
    ensures places_after { W.numbers places.new ≡ written (composed_says W.layout result)
        (places_of (W.number repr_packed) (empty_layout (W.number repr_align)) (listed W.bits members.now))
        (W.numbers places.old) }
    ensures gaps_after { W.numbers gaps.new ≡ written (composed_says W.layout result)
        (gaps_of (W.number repr_packed) (empty_layout (W.number repr_align)) (listed W.bits members.now))
        (W.numbers gaps.old) }
{
    let l = compose::for_repr_c_struct(repr_align, repr_packed, members)?;
    write_places(repr_align, repr_packed, members, places, gaps);
    Ok(l)
}

// The layout of a repr(C) struct with these members, and where each of them landed: its place and the gap before it, in two lent
// slices, one number a member. On a refusal nothing is written.
pub fn for_repr_c_struct_places<W: Lists>(
    repr_align: W,
    repr_packed: W,
    members: &[u8],
    places: &mut [W],
    gaps: &mut [W],
) -> Result<DstLayout<W>, RefusedAt<u64>>
    ensures answer { composed_says W.layout result ≡ places_for W.bits (W.number repr_align) (W.number repr_packed)
        members.now (length places.old) (length gaps.old) }
    ensures places { W.numbers places.new ≡ written (composed_says W.layout result)
        (places_of (W.number repr_packed) (empty_layout (W.number repr_align)) (listed W.bits members.now))
        (W.numbers places.old) }
    ensures gaps { W.numbers gaps.new ≡ written (composed_says W.layout result)
        (gaps_of (W.number repr_packed) (empty_layout (W.number repr_align)) (listed W.bits members.now))
        (W.numbers gaps.old) }
    ensures meaning { ListPlacesMean W.bits (W.number repr_packed) members.now (W.numbers places.new)
        (W.numbers gaps.new) (composed_says W.layout result) }
{
    if members.len() % RECORD_BYTES == 0 {
        if both_are(places.len(), gaps.len(), members.len() / RECORD_BYTES) {
            compose_and_write(repr_align, repr_packed, members, places, gaps)
        } else {
            Err(RefusedAt {
                refusal: Refusal::SliceLength,
                place: 0,
            })
        }
    } else {
        Err(RefusedAt {
            refusal: Refusal::RecordLength,
            place: 0,
        })
    }
}
