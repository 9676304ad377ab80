// What C and Rust call of exports_layouts: an export for each of its functions, with the same contract, and no logic of its own.
#![tactic(auto)]

ghost use Rattle.std.specs.Prelude.{◌≡◌, true, false, length};
ghost use Rattle.make.specs.Make.{new_zst_for, type_for, slice_for};
ghost use Rattle.layout_defs.specs.Extend.{extend_for};
ghost use Rattle.padding_defs.specs.Pad.{pad_for, static_for, dynamic_for};
ghost use Rattle.record_defs.specs.Record.{decode_for, encode_words_for, encoded_words_into};
ghost use Rattle.scalar.specs.Scalar.{target64, scalar_for};
ghost use Rattle.compose_defs.specs.Compose.{ported, compose_for, struct_for};
ghost use Rattle.exports_numbers.specs.Numbers.{decision_out};
ghost use Rattle.exports_layouts.specs.Layouts.{words_given, layout_out, with_layout};
ghost use Rattle.exports_layouts.specs.Layouts.{composed_out, refusal_out};

use exports_layouts::{ComposedOut, Layout, LayoutOut};
use exports_numbers::Number;

// The empty layout.
#[unsafe(no_mangle)]
pub extern "C" fn lukaripe_new_zst(repr_align: u64) -> LayoutOut
    ensures { result ≡ layout_out (new_zst_for 64 repr_align) }
{
    exports_layouts::lukaripe_new_zst(repr_align)
}

// The layout of a type, its padding not known.
#[unsafe(no_mangle)]
pub extern "C" fn lukaripe_for_type(size: u64, align: u64) -> LayoutOut
    ensures { result ≡ layout_out (type_for 64 false size align) }
{
    exports_layouts::lukaripe_for_type(size, align)
}

// The layout of a type without padding.
#[unsafe(no_mangle)]
pub extern "C" fn lukaripe_for_unpadded_type(size: u64, align: u64) -> LayoutOut
    ensures { result ≡ layout_out (type_for 64 true size align) }
{
    exports_layouts::lukaripe_for_unpadded_type(size, align)
}

// The layout of a slice.
#[unsafe(no_mangle)]
pub extern "C" fn lukaripe_for_slice(size: u64, align: u64) -> LayoutOut
    ensures { result ≡ layout_out (slice_for 64 size align) }
{
    exports_layouts::lukaripe_for_slice(size, align)
}

// The layout with one member more.
#[unsafe(no_mangle)]
pub extern "C" fn lukaripe_extend(layout: Layout, field: Layout, repr_packed: u64) -> LayoutOut
    ensures { result ≡ layout_out (with_layout 64 layout (λ l. with_layout 64 field (λ m. extend_for 64 l m repr_packed))) }
{
    exports_layouts::lukaripe_extend(layout, field, repr_packed)
}

// The layout with its closing padding.
#[unsafe(no_mangle)]
pub extern "C" fn lukaripe_pad_to_align(layout: Layout) -> LayoutOut
    ensures { result ≡ layout_out (with_layout 64 layout (λ l. pad_for 64 l)) }
{
    exports_layouts::lukaripe_pad_to_align(layout)
}

// Whether padding is not known to be absent.
#[unsafe(no_mangle)]
pub extern "C" fn lukaripe_requires_static_padding(layout: Layout) -> Number
    ensures { result ≡ decision_out (with_layout 64 layout (λ l. static_for 64 l)) }
{
    exports_layouts::lukaripe_requires_static_padding(layout)
}

// Whether padding depends on the count.
#[unsafe(no_mangle)]
pub extern "C" fn lukaripe_requires_dynamic_padding(layout: Layout) -> Number
    ensures { result ≡ decision_out (with_layout 64 layout (λ l. dynamic_for 64 l)) }
{
    exports_layouts::lukaripe_requires_dynamic_padding(layout)
}

// The layout of a record.
#[unsafe(no_mangle)]
pub extern "C" fn lukaripe_decode(bytes: &[u8]) -> LayoutOut
    ensures { result ≡ layout_out (decode_for 64 bytes.now) }
{
    exports_layouts::lukaripe_decode(bytes)
}

// The record of a layout into 48 lent bytes: the refusal number, and then no byte has changed.
#[unsafe(no_mangle)]
pub extern "C" fn lukaripe_encode(layout: Layout, out: &mut [u8]) -> u64
    ensures value { result ≡ refusal_out (encode_words_for 64 (words_given layout) (length out.old)) }
    ensures out_after { out.new ≡ encoded_words_into 64 (words_given layout) out.old }
{
    exports_layouts::lukaripe_encode(layout, out)
}

// The layout of a scalar.
#[unsafe(no_mangle)]
pub extern "C" fn lukaripe_scalar(code: u64) -> LayoutOut
    ensures { result ≡ layout_out (scalar_for target64 code) }
{
    exports_layouts::lukaripe_scalar(code)
}

// The layout of a member list before its closing padding.
#[unsafe(no_mangle)]
pub extern "C" fn lukaripe_compose(repr_align: u64, repr_packed: u64, members: &[u8]) -> ComposedOut
    ensures { result ≡ composed_out (compose_for 64 ported repr_align repr_packed members.now) }
{
    exports_layouts::lukaripe_compose(repr_align, repr_packed, members)
}

// The layout of a member list.
#[unsafe(no_mangle)]
pub extern "C" fn lukaripe_for_repr_c_struct(
    repr_align: u64,
    repr_packed: u64,
    members: &[u8],
) -> ComposedOut
    ensures { result ≡ composed_out (struct_for 64 ported repr_align repr_packed members.now) }
{
    exports_layouts::lukaripe_for_repr_c_struct(repr_align, repr_packed, members)
}
