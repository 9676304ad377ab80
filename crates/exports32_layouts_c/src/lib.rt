// What C and Rust call of exports32_layouts: an export for each of its functions, with the same contract, and no logic of its
// own. C has each function by its name, so that none is an instance of a generic one.
#![tactic(auto)]

ghost use Rattle.std.specs.Prelude.{◌≡◌, true, false};
ghost use Rattle.make.specs.Make.{new_zst_for, type_for, slice_for};
ghost use Rattle.layout_defs.specs.Extend.{extend_for};
ghost use Rattle.padding_defs.specs.Pad.{pad_for, static_for, dynamic_for};
ghost use Rattle.scalar.specs.Scalar.{scalar_for};
ghost use Rattle.scalar32.specs.Target.{target32};
ghost use Rattle.exports32_numbers.specs.Numbers.{decision_out32};
ghost use Rattle.exports32_layouts.specs.Layouts.{layout_out32};
ghost use Rattle.exports32_layouts.specs.Layouts.{with_layout32};

use exports32_layouts::{Layout32, LayoutOut32};
use exports32_numbers::Number32;

// The empty layout.
#[unsafe(no_mangle)]
pub extern "C" fn lukaripe32_new_zst(repr_align: u32) -> LayoutOut32
    ensures { result ≡ layout_out32 (new_zst_for 32 repr_align) }
{
    exports32_layouts::lukaripe32_new_zst(repr_align)
}

// The layout of a type, its padding not known.
#[unsafe(no_mangle)]
pub extern "C" fn lukaripe32_for_type(size: u32, align: u32) -> LayoutOut32
    ensures { result ≡ layout_out32 (type_for 32 false size align) }
{
    exports32_layouts::lukaripe32_for_type(size, align)
}

// The layout of a type without padding.
#[unsafe(no_mangle)]
pub extern "C" fn lukaripe32_for_unpadded_type(size: u32, align: u32) -> LayoutOut32
    ensures { result ≡ layout_out32 (type_for 32 true size align) }
{
    exports32_layouts::lukaripe32_for_unpadded_type(size, align)
}

// The layout of a slice.
#[unsafe(no_mangle)]
pub extern "C" fn lukaripe32_for_slice(size: u32, align: u32) -> LayoutOut32
    ensures { result ≡ layout_out32 (slice_for 32 size align) }
{
    exports32_layouts::lukaripe32_for_slice(size, align)
}

// The layout with one member more.
#[unsafe(no_mangle)]
pub extern "C" fn lukaripe32_extend(
    layout: Layout32,
    field: Layout32,
    repr_packed: u32,
) -> LayoutOut32
    ensures { result ≡ layout_out32 (with_layout32 32 layout (λ l. with_layout32 32 field (λ m. extend_for 32 l m repr_packed))) }
{
    exports32_layouts::lukaripe32_extend(layout, field, repr_packed)
}

// The layout with its closing padding.
#[unsafe(no_mangle)]
pub extern "C" fn lukaripe32_pad_to_align(layout: Layout32) -> LayoutOut32
    ensures { result ≡ layout_out32 (with_layout32 32 layout (λ l. pad_for 32 l)) }
{
    exports32_layouts::lukaripe32_pad_to_align(layout)
}

// Whether padding is not known to be absent.
#[unsafe(no_mangle)]
pub extern "C" fn lukaripe32_requires_static_padding(layout: Layout32) -> Number32
    ensures { result ≡ decision_out32 (with_layout32 32 layout (λ l. static_for 32 l)) }
{
    exports32_layouts::lukaripe32_requires_static_padding(layout)
}

// Whether padding depends on the count.
#[unsafe(no_mangle)]
pub extern "C" fn lukaripe32_requires_dynamic_padding(layout: Layout32) -> Number32
    ensures { result ≡ decision_out32 (with_layout32 32 layout (λ l. dynamic_for 32 l)) }
{
    exports32_layouts::lukaripe32_requires_dynamic_padding(layout)
}

// The layout of a scalar.
#[unsafe(no_mangle)]
pub extern "C" fn lukaripe32_scalar(code: u32) -> LayoutOut32
    ensures { result ≡ layout_out32 (scalar_for target32 code) }
{
    exports32_layouts::lukaripe32_scalar(code)
}
