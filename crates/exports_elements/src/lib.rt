// Arrays and slices of a layout for C and Rust: no logic of their own. include/lukaripe.h is their C side. They stand apart, so
// that what they call is called once here, and inlined.
#![tactic(auto)]

ghost use Rattle.std.specs.Prelude.{◌≡◌};
ghost use Rattle.describe_defs.specs.Elements.{array_for, slice_of_for};
ghost use Rattle.exports_layouts.specs.Layouts.{layout_out, with_layout};

use exports_layouts::{Layout, LayoutOut};
use layout::DstLayout;

// The layout of an array of count elements.
#[unsafe(no_mangle)]
pub extern "C" fn lukaripe_for_array(elem: Layout, count: u64) -> LayoutOut
    ensures { result ≡ layout_out (with_layout 64 elem (λ l. array_for 64 l count)) }
{
    LayoutOut::from(DstLayout::try_from(elem).and_then(|l| elements::for_array(l, count)))
}

// The layout of a slice of such elements.
#[unsafe(no_mangle)]
pub extern "C" fn lukaripe_for_slice_of(elem: Layout) -> LayoutOut
    ensures { result ≡ layout_out (with_layout 64 elem (λ l. slice_of_for 64 l)) }
{
    LayoutOut::from(DstLayout::try_from(elem).and_then(elements::for_slice_of))
}
