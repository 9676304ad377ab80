// What C and Rust call of exports_elements: an export for each of its functions, with the same contract, and no logic of its own.
#![tactic(auto)]

ghost use Rattle.std.specs.Prelude.{◌≡◌};
ghost use Rattle.describe_defs.specs.Elements.{array_for, slice_of_for};
ghost use Rattle.exports_layouts.specs.Layouts.{layout_out, with_layout};

use exports_layouts::{Layout, LayoutOut};

// The layout of an array of count elements.
#[unsafe(no_mangle)]
pub extern "C" fn lukaripe_for_array(elem: Layout, count: u64) -> LayoutOut
    ensures { result ≡ layout_out (with_layout 64 elem (λ l. array_for 64 l count)) }
{
    exports_elements::lukaripe_for_array(elem, count)
}

// The layout of a slice of such elements.
#[unsafe(no_mangle)]
pub extern "C" fn lukaripe_for_slice_of(elem: Layout) -> LayoutOut
    ensures { result ≡ layout_out (with_layout 64 elem (λ l. slice_of_for 64 l)) }
{
    exports_elements::lukaripe_for_slice_of(elem)
}
