// What C and Rust call of exports32_elements: an export for each of its functions, with the same contract, and no logic of its
// own. C has each function by its name, so that none is an instance of a generic one.
#![tactic(auto)]

ghost use Rattle.std.specs.Prelude.{◌≡◌};
ghost use Rattle.describe_defs.specs.Elements.{array_for, slice_of_for};
ghost use Rattle.exports32_layouts.specs.Layouts.{layout_out32, with_layout32};

use exports32_layouts::{Layout32, LayoutOut32};

// The layout of an array of count elements.
#[unsafe(no_mangle)]
pub extern "C" fn lukaripe32_for_array(elem: Layout32, count: u32) -> LayoutOut32
    ensures { result ≡ layout_out32 (with_layout32 32 elem (λ l. array_for 32 l count)) }
{
    exports32_elements::lukaripe32_for_array(elem, count)
}

// The layout of a slice of such elements.
#[unsafe(no_mangle)]
pub extern "C" fn lukaripe32_for_slice_of(elem: Layout32) -> LayoutOut32
    ensures { result ≡ layout_out32 (with_layout32 32 elem (λ l. slice_of_for 32 l)) }
{
    exports32_elements::lukaripe32_for_slice_of(elem)
}
