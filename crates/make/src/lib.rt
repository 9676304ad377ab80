// Layouts made of numbers, after zerocopy's constructors of DstLayout.
#![tactic(auto)]

ghost use Rattle.std.specs.Prelude.{◌≡◌, true, false};
ghost use Rattle.util_defs.specs.Refusal.{Meets};
ghost use Rattle.util_defs.specs.Helpers.{align_causes};
ghost use Rattle.layout.specs.View.{layout_says};
ghost use Rattle.make.specs.Make.{asked, empty_layout, new_zst_for, type_causes, type_layout, type_for, slice_layout, slice_for};

use layout::{DstLayout, SizeInfo};
use rounding::RoundingAlignAndPhase;
use trailing::TrailingSliceLayout;
use util::{Align, Refusal};

// The least alignment, which a layout has where none is asked for.
pub const MIN_ALIGN: u64 = 1;

// The alignment asked for; 0 means that none is.
fn asked_align(repr_align: u64) -> u64
    ensures { result ≡ asked repr_align }
{
    if repr_align == 0 {
        MIN_ALIGN
    } else {
        repr_align
    }
}

fn for_marked_type(size: u64, align: u64, unpadded: bool) -> Result<DstLayout<u64>, Refusal>
    ensures { layout_says result ≡ type_for 64 unpadded size align }
{
    let align = Align::new(align)?;
    if align.remainder(size) == 0 {
        Ok(DstLayout {
            align: align.value,
            size_info: SizeInfo::Sized { size },
            statically_shallow_unpadded: unpadded,
            align_modifier: false,
        })
    } else {
        Err(Refusal::SizeNotMultipleOfAlign)
    }
}

// The layout of a type with no members: size 0 and the alignment asked for.
pub fn new_zst(repr_align: u64) -> Result<DstLayout<u64>, Refusal>
    ensures answer { layout_says result ≡ new_zst_for 64 repr_align }
    ensures meaning { Meets (align_causes 64 (asked repr_align)) (λ l. l ≡ empty_layout repr_align) (layout_says result) }
{
    let align = Align::new(asked_align(repr_align))?;
    Ok(DstLayout {
        align: align.value,
        size_info: SizeInfo::Sized { size: 0 },
        statically_shallow_unpadded: true,
        align_modifier: repr_align != 0,
    })
}

// The layout of a type of which it is not known whether it has padding.
pub fn for_type(size: u64, align: u64) -> Result<DstLayout<u64>, Refusal>
    ensures answer { layout_says result ≡ type_for 64 false size align }
    ensures meaning { Meets (type_causes 64 size align) (λ l. l ≡ type_layout false size align) (layout_says result) }
{
    for_marked_type(size, align, false)
}

// The layout of a type that is taken to have no padding.
pub fn for_unpadded_type(size: u64, align: u64) -> Result<DstLayout<u64>, Refusal>
    ensures answer { layout_says result ≡ type_for 64 true size align }
    ensures meaning { Meets (type_causes 64 size align) (λ l. l ≡ type_layout true size align) (layout_says result) }
{
    for_marked_type(size, align, true)
}

// The layout of a slice of a type: its elements from offset 0 on, so that the phase is 0 and the word is the alignment.
pub fn for_slice(size: u64, align: u64) -> Result<DstLayout<u64>, Refusal>
    ensures answer { layout_says result ≡ slice_for 64 size align }
    ensures meaning { Meets (type_causes 64 size align) (λ l. l ≡ slice_layout size align) (layout_says result) }
{
    let align = Align::new(align)?;
    let remainder = align.remainder(size);
    if remainder == 0 {
        Ok(DstLayout {
            align: align.value,
            size_info: SizeInfo::SliceDst(TrailingSliceLayout {
                offset: 0,
                elem_size: size,
                size_base: 0,
                size_rounding_align_and_phase: RoundingAlignAndPhase(align.value),
            }),
            statically_shallow_unpadded: true,
            align_modifier: false,
        })
    } else {
        Err(Refusal::SizeNotMultipleOfAlign)
    }
}
