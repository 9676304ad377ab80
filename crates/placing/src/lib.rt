// The last part of the member step, after zerocopy's method extend of DstLayout: a member put at its place. It stands in a crate
// of its own, since an edit of it then proves none of the step's other functions again.
#![tactic(auto)]

ghost use Rattle.std.specs.Prelude.{◌≡◌, max, ◌&&◌, ◌||◌, [], ◌∷◌, ◌==◌, nat_eq};
ghost use Rattle.util_defs.specs.Refusal.{unless};
ghost use Rattle.trailing.specs.View.{trailing_of};
ghost use Rattle.layout_defs.specs.Layout.{trailing};
ghost use Rattle.layout_defs.specs.Extend.{placed_at, member_passes};
ghost use Rattle.layout.specs.View.{info_of, layout_says, info_says};

use layout::{DstLayout, SizeInfo, SizedLayout};
use trailing::TrailingSliceLayout;
use util::Refusal;

// The base is not rounded, so that the place is added to it as it is to the offset.
fn place_trailing(tail: TrailingSliceLayout<u64>, place: u64) -> Result<SizeInfo<u64>, Refusal>
    ensures { info_says result ≡ unless (member_passes 64 place (trailing (trailing_of tail)) ∷ [])
        (placed_at place (trailing (trailing_of tail))) }
{
    let word = tail.size_rounding_align_and_phase;
    if u64::MAX - place < tail.offset {
        return Err(Refusal::MemberPassesMax);
    }
    if u64::MAX - place < tail.size_base {
        return Err(Refusal::MemberPassesMax);
    }
    Ok(SizeInfo::SliceDst(TrailingSliceLayout {
        offset: place + tail.offset,
        elem_size: tail.elem_size,
        size_base: place + tail.size_base,
        size_rounding_align_and_phase: word,
    }))
}

// The size of a layout whose last member stands at place.
fn place_member(size_info: SizeInfo<u64>, place: u64) -> Result<SizeInfo<u64>, Refusal>
    ensures { info_says result ≡ unless (member_passes 64 place (info_of size_info) ∷ []) (placed_at place (info_of size_info)) }
{
    match size_info {
        SizeInfo::Sized { size } => {
            // The compiler makes one addition of this, and a test of its carry.
            let end = place.wrapping_add(size);
            if end < place {
                Err(Refusal::MemberPassesMax)
            } else {
                Ok(SizeInfo::Sized { size: end })
            }
        }
        SizeInfo::SliceDst(tail) => place_trailing(tail, place),
    }
}

// Whether the mark stays: both had it and no gap arose. By ifs, here and in `either`: with `&&` and `||` a composition of eight
// members takes 1.05 times the instructions (558 for 529).
fn step_mark(unpadded: bool, field_unpadded: bool, preceding_size: u64, place: u64) -> bool
    ensures { result ≡ (unpadded && (field_unpadded && nat_eq place preceding_size)) }
{
    if unpadded {
        if field_unpadded {
            place == preceding_size
        } else {
            false
        }
    } else {
        false
    }
}

// Whether one of two was asked for an alignment.
fn either(a: bool, b: bool) -> bool
    ensures { result ≡ (a || b) }
{
    if a { true } else { b }
}

// The layout with a member more whose alignment, field_align, and place are known.
pub fn extend_at(
    own: SizedLayout,
    field: DstLayout<u64>,
    field_align: u64,
    place: u64,
) -> Result<DstLayout<u64>, Refusal>
    ensures { layout_says result ≡ unless (member_passes 64 place (info_of field.size_info) ∷ [])
        (record {
          align = max own.align field_align;
          info = placed_at place (info_of field.size_info);
          mark = own.statically_shallow_unpadded && (field.statically_shallow_unpadded && place == own.size);
          modifier = own.align_modifier || field.align_modifier;
        }) }
{
    let field_info = field.size_info;
    let unpadded = step_mark(
        own.statically_shallow_unpadded,
        field.statically_shallow_unpadded,
        own.size,
        place,
    );
    let size_info = place_member(field_info, place)?;
    Ok(DstLayout {
        align: own.align.max(field_align),
        size_info,
        statically_shallow_unpadded: unpadded,
        align_modifier: either(own.align_modifier, field.align_modifier),
    })
}
