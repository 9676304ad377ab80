// Whole layouts at 32 bits, by those at 64: made of numbers, checked, and asked for their padding. Each call at 32 bits is a
// function of its own, and no instance of a generic one: it widens what it is given, calls that of 64 bits, and of numbers
// that come back narrows or refuses those, and at 64 bits there would be none of these steps. Those named `.._within` go by
// a greatest number, for the loops of either width.
#![tactic(auto)]

ghost use Rattle.std.specs.Prelude.{◌≡◌, true, false};
ghost use Rattle.util_defs.specs.Refusal.{Tells, Meets};
ghost use Rattle.util_defs.specs.Helpers.{align_causes};
ghost use Rattle.util.specs.View.{decision_says};
ghost use Rattle.layout_defs.specs.Layout.{layout_causes, check_for, FitsWidth};
ghost use Rattle.layout.specs.View.{info_of, layout_of, layout_says, check_says};
ghost use Rattle.padding_defs.specs.Pad.{static_for, DynamicPadding, dynamic_for};
ghost use Rattle.make.specs.Make.{asked, empty_layout, new_zst_for, type_causes, type_layout, type_for, slice_layout, slice_for};
ghost use Rattle.widths_defs.specs.Low.{mapped};
ghost use Rattle.widths_layouts_defs.specs.Low.{low_info, low_layout, InfoIn, LayoutIn};
ghost use Rattle.widths_layouts_defs.specs.Within.{closed_within};

use layout::{DstLayout, SizeInfo};
use trailing::TrailingSliceLayout;
use util::Refusal;

// A size of 32 bits widened to 64. No From: an impl would stand in the crate of the type, below the definition of what this
// promises of 32 bits.
fn wide_info(size_info: SizeInfo<u32>) -> SizeInfo<u64>
    ensures { (info_of result ≡ info_of size_info) × InfoIn 32 (info_of size_info) }
{
    match size_info {
        SizeInfo::Sized { size } => SizeInfo::Sized { size: size as u64 },
        SizeInfo::SliceDst(tail) => SizeInfo::SliceDst(trailing32::wide_tail(tail)),
    }
}

// A size of 64 bits narrowed. No From: neither the trait nor a type of the impl would be of this crate.
fn low_info(size_info: SizeInfo<u64>) -> SizeInfo<u32>
    ensures { info_of result ≡ low_info 32 (info_of size_info) }
{
    match size_info {
        SizeInfo::Sized { size } => SizeInfo::Sized {
            size: numbers32::low_word(size),
        },
        SizeInfo::SliceDst(tail) => SizeInfo::SliceDst(trailing32::low_tail(tail)),
    }
}

// A layout of 32 bits widened to 64, which hold the same numbers. No From: an impl would stand in the crate of the type,
// below the definition of what this promises of 32 bits.
pub fn wide_layout(layout: DstLayout<u32>) -> DstLayout<u64>
    ensures { (layout_of result ≡ layout_of layout) × LayoutIn 32 (layout_of layout) }
{
    let size_info = layout.size_info;
    DstLayout {
        align: layout.align as u64,
        size_info: wide_info(size_info),
        statically_shallow_unpadded: layout.statically_shallow_unpadded,
        align_modifier: layout.align_modifier,
    }
}

// A layout of 64 bits narrowed. No From: neither the trait nor a type of the impl would be of this crate.
pub fn low_layout(layout: DstLayout<u64>) -> DstLayout<u32>
    ensures { layout_of result ≡ low_layout 32 (layout_of layout) }
{
    let size_info = layout.size_info;
    DstLayout {
        align: numbers32::low_word(layout.align),
        size_info: low_info(size_info),
        statically_shallow_unpadded: layout.statically_shallow_unpadded,
        align_modifier: layout.align_modifier,
    }
}

// An answer of 64 bits narrowed. No From: neither the trait nor a type of the impl would be of this crate.
pub fn low_answer(answer: Result<DstLayout<u64>, Refusal>) -> Result<DstLayout<u32>, Refusal>
    ensures { layout_says result ≡ mapped (low_layout 32) (layout_says answer) }
{
    answer.map(low_layout)
}

// Whether the size of a layout is at most a number, or of a trailing one its base.
pub fn closed_within(size_info: SizeInfo<u64>, max: u64) -> bool
    ensures { result ≡ closed_within max (info_of size_info) }
{
    match size_info {
        SizeInfo::Sized { size } => size <= max,
        SizeInfo::SliceDst(tail) => tail.size_base <= max,
    }
}

// Whether the layout is one: its alignment is a power of two and its rounding word, if it has one, is not 0.
pub fn check(layout: DstLayout<u32>) -> Result<(), Refusal>
    ensures answer { check_says result ≡ check_for 32 (layout_of layout) }
    ensures meaning { Meets (layout_causes 32 (layout_of layout)) (λ _. FitsWidth 32 (layout_of layout)) (check_says result) }
{
    let wide = wide_layout(layout);
    wide.check()
}

// The layout of a type with no members: size 0 and the alignment asked for.
pub fn new_zst(repr_align: u32) -> Result<DstLayout<u32>, Refusal>
    ensures answer { layout_says result ≡ new_zst_for 32 repr_align }
    ensures meaning { Meets (align_causes 32 (asked repr_align)) (λ l. l ≡ empty_layout repr_align) (layout_says result) }
{
    low_answer(make::new_zst(repr_align as u64))
}

// The layout of a type of which it is not known whether it has padding.
pub fn for_type(size: u32, align: u32) -> Result<DstLayout<u32>, Refusal>
    ensures answer { layout_says result ≡ type_for 32 false size align }
    ensures meaning { Meets (type_causes 32 size align) (λ l. l ≡ type_layout false size align) (layout_says result) }
{
    low_answer(make::for_type(size as u64, align as u64))
}

// The layout of a type that is taken to have no padding.
pub fn for_unpadded_type(size: u32, align: u32) -> Result<DstLayout<u32>, Refusal>
    ensures answer { layout_says result ≡ type_for 32 true size align }
    ensures meaning { Meets (type_causes 32 size align) (λ l. l ≡ type_layout true size align) (layout_says result) }
{
    low_answer(make::for_unpadded_type(size as u64, align as u64))
}

// The layout of a slice of a type.
pub fn for_slice(size: u32, align: u32) -> Result<DstLayout<u32>, Refusal>
    ensures answer { layout_says result ≡ slice_for 32 size align }
    ensures meaning { Meets (type_causes 32 size align) (λ l. l ≡ slice_layout size align) (layout_says result) }
{
    low_answer(make::for_slice(size as u64, align as u64))
}

// Whether padding between the members is not ruled out. A yes does not mean that there is some.
pub fn requires_static_padding(layout: DstLayout<u32>) -> Result<bool, Refusal>
    ensures answer { decision_says result ≡ static_for 32 (layout_of layout) }
    ensures meaning { Meets (layout_causes 32 (layout_of layout)) (Tells ((layout_of layout).mark ≡ false))
        (decision_says result) }
{
    needs::requires_static_padding(wide_layout(layout))
}

// Whether padding after the elements is not ruled out at every count. A yes does not mean that a count needs some.
pub fn requires_dynamic_padding(layout: DstLayout<u32>) -> Result<bool, Refusal>
    ensures answer { decision_says result ≡ dynamic_for 32 (layout_of layout) }
    ensures meaning { Meets (layout_causes 32 (layout_of layout)) (Tells (DynamicPadding 32 (layout_of layout).info))
        (decision_says result) }
{
    needs::requires_dynamic_padding(wide_layout(layout))
}
