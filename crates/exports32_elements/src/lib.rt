// Arrays and slices of a layout at 32 bits for C and Rust: no logic of their own. include/lukaripe32.h is their C side. They
// stand apart, so that what they call is called once here, and inlined. C has each function by its name, so that none is an
// instance of a generic one.
#![tactic(auto)]

ghost use Rattle.std.specs.Prelude.{◌≡◌};
ghost use Rattle.describe_defs.specs.Elements.{array_for, slice_of_for};
ghost use Rattle.exports32_layouts.specs.Layouts.{layout_out32, with_layout32};

use exports32_layouts::{Layout32, LayoutOut32};
use layout::DstLayout;

// The layout of an array of count elements.
#[unsafe(no_mangle)]
pub extern "C" fn lukaripe32_for_array(elem: Layout32, count: u32) -> LayoutOut32
    ensures { result ≡ layout_out32 (with_layout32 32 elem (λ l. array_for 32 l count)) }
{
    LayoutOut32::from(DstLayout::try_from(elem).and_then(|l| elements32::for_array(l, count)))
}

// The layout of a slice of such elements.
#[unsafe(no_mangle)]
pub extern "C" fn lukaripe32_for_slice_of(elem: Layout32) -> LayoutOut32
    ensures { result ≡ layout_out32 (with_layout32 32 elem (λ l. slice_of_for 32 l)) }
{
    LayoutOut32::from(DstLayout::try_from(elem).and_then(elements32::for_slice_of))
}
