// The functions of layouts, records and member lists for C and Rust: no logic of their own. include/lukaripe.h is their C side.
#![tactic(auto)]

ghost use Rattle.std.specs.Prelude.{◌≡◌, true, false, length};
ghost use Rattle.make.specs.Make.{new_zst_for, type_for, slice_for};
ghost use Rattle.layout_defs.specs.Extend.{extend_for};
ghost use Rattle.layout.specs.View.{layout_of, layout_says, check_says};
ghost use Rattle.padding_defs.specs.Pad.{pad_for, static_for, dynamic_for};
ghost use Rattle.record_defs.specs.Record.{words_for, words_of, decode_for, encode_words_for, encoded_words_into};
ghost use Rattle.scalar.specs.Scalar.{target64, scalar_for};
ghost use Rattle.record.specs.View.{words_in};
ghost use Rattle.compose_defs.specs.Compose.{ported, compose_for, struct_for};
ghost use Rattle.compose.specs.View.{compose_says};
ghost use Rattle.exports_numbers.specs.Numbers.{decision_out};
ghost use Rattle.exports_layouts.specs.Layouts.{words_given, words_out, layout_out, with_layout};
ghost use Rattle.exports_layouts.specs.Layouts.{composed_out, refusal_out};

use exports_numbers::Number;
use layout::{DstLayout, SizeInfo};
use record::Words;
use util::{Refusal, RefusedAt};

// A layout, as the six words of its record, which is how one crosses to C; zeros beside a refusal.
#[repr(C)]
#[derive(Clone, Copy, Default)]
pub struct Layout {
    pub align: u64,
    pub kind: u64,
    // The size of a fixed layout, the base of a trailing one.
    pub size_base: u64,
    pub offset: u64,
    pub elem_size: u64,
    pub word: u64,
}

// C has it by value, so that it is no Result.
#[repr(C)]
#[derive(Clone, Copy)]
pub struct LayoutOut {
    pub refusal: u64,
    pub layout: Layout,
}

// C has it by value, so that it is no Result.
#[repr(C)]
#[derive(Clone, Copy)]
pub struct ComposedOut {
    pub refusal: u64,
    pub place: u64,
    pub layout: Layout,
}

// The words of a layout that was handed over.
impl From<Layout> for Words {
    ghost from_gives = { λ given words. words_in words ≡ words_given given };

    fn from(l: Layout) -> Words {
        Words {
            align: l.align,
            kind: l.kind,
            size: l.size_base,
            offset: l.offset,
            elem_size: l.elem_size,
            word: l.word,
        }
    }
}

// A layout that was handed over: its words are tested as a record's are.
impl TryFrom<Layout> for DstLayout<u64> {
    type Error = Refusal;

    ghost try_from_gives = { λ given a. layout_says a ≡ words_for 64 (words_given given) };

    fn try_from(l: Layout) -> Result<DstLayout<u64>, Refusal> {
        record::layout_from_words(Words::from(l))
    }
}

// `extend`, by the functions of its two kinds, which the compiler inlines: a call would lend both layouts by memory.
fn with_member(
    l: DstLayout<u64>,
    m: DstLayout<u64>,
    repr_packed: u64,
) -> Result<DstLayout<u64>, Refusal>
    ensures { layout_says result ≡ extend_for 64 (layout_of l) (layout_of m) repr_packed }
{
    let size_info = l.size_info;
    match size_info {
        SizeInfo::Sized { size } => extend::extend_sized(l.with_size(size), m, repr_packed),
        SizeInfo::SliceDst(tail) => Err(extend::extend_trailing(
            l.align,
            tail,
            l.statically_shallow_unpadded,
            l.align_modifier,
            m,
            repr_packed,
        )),
    }
}

// Words that come back, and a layout by its words.
impl From<Words> for Layout {
    ghost from_gives = { λ words given. given ≡ words_out (words_in words) };

    fn from(words: Words) -> Layout {
        Layout {
            align: words.align,
            kind: words.kind,
            size_base: words.size,
            offset: words.offset,
            elem_size: words.elem_size,
            word: words.word,
        }
    }
}

impl From<DstLayout<u64>> for Layout {
    ghost from_gives = { λ l given. given ≡ words_out (words_of (layout_of l)) };

    fn from(l: DstLayout<u64>) -> Layout {
        Layout::from(record::words_from_layout(l))
    }
}

// A layout as it crosses to C.
impl From<Result<DstLayout<u64>, Refusal>> for LayoutOut {
    ghost from_gives = { λ a out. out ≡ layout_out (layout_says a) };

    #[inline(always)]
    fn from(a: Result<DstLayout<u64>, Refusal>) -> LayoutOut {
        match a {
            Ok(l) => LayoutOut {
                refusal: 0,
                layout: Layout::from(l),
            },
            Err(refusal) => LayoutOut {
                refusal: refusal.number(),
                layout: Layout::default(),
            },
        }
    }
}

// A composition as it crosses to C.
impl From<Result<DstLayout<u64>, RefusedAt<u64>>> for ComposedOut {
    ghost from_gives = { λ a out. out ≡ composed_out (compose_says a) };

    #[inline(always)]
    fn from(a: Result<DstLayout<u64>, RefusedAt<u64>>) -> ComposedOut {
        match a {
            Ok(l) => ComposedOut {
                refusal: 0,
                place: 0,
                layout: Layout::from(l),
            },
            Err(RefusedAt { refusal, place }) => ComposedOut {
                refusal: refusal.number(),
                place,
                layout: Layout::default(),
            },
        }
    }
}

// The refusal number alone, where nothing else comes back. No From: neither the trait nor a type of the impl would be of this
// crate.
#[inline(always)]
pub fn refusal_number(a: Result<(), Refusal>) -> u64
    ensures { result ≡ refusal_out (check_says a) }
{
    a.err().map_or(0, Refusal::number)
}

// The empty layout.
#[unsafe(no_mangle)]
pub extern "C" fn lukaripe_new_zst(repr_align: u64) -> LayoutOut
    ensures { result ≡ layout_out (new_zst_for 64 repr_align) }
{
    LayoutOut::from(make::new_zst(repr_align))
}

// The layout of a type, its padding not known.
#[unsafe(no_mangle)]
pub extern "C" fn lukaripe_for_type(size: u64, align: u64) -> LayoutOut
    ensures { result ≡ layout_out (type_for 64 false size align) }
{
    LayoutOut::from(make::for_type(size, align))
}

// The layout of a type without padding.
#[unsafe(no_mangle)]
pub extern "C" fn lukaripe_for_unpadded_type(size: u64, align: u64) -> LayoutOut
    ensures { result ≡ layout_out (type_for 64 true size align) }
{
    LayoutOut::from(make::for_unpadded_type(size, align))
}

// The layout of a slice.
#[unsafe(no_mangle)]
pub extern "C" fn lukaripe_for_slice(size: u64, align: u64) -> LayoutOut
    ensures { result ≡ layout_out (slice_for 64 size align) }
{
    LayoutOut::from(make::for_slice(size, align))
}

// The layout with one member more.
#[unsafe(no_mangle)]
pub extern "C" fn lukaripe_extend(layout: Layout, field: Layout, repr_packed: u64) -> LayoutOut
    ensures { result ≡ layout_out (with_layout 64 layout (λ l. with_layout 64 field (λ m. extend_for 64 l m repr_packed))) }
{
    DstLayout::try_from(layout)
        .and_then(|l| DstLayout::try_from(field).and_then(|m| with_member(l, m, repr_packed)))
        .into()
}

// The layout with its closing padding.
#[unsafe(no_mangle)]
pub extern "C" fn lukaripe_pad_to_align(layout: Layout) -> LayoutOut
    ensures { result ≡ layout_out (with_layout 64 layout (λ l. pad_for 64 l)) }
{
    LayoutOut::from(DstLayout::try_from(layout).and_then(padding::pad_to_align))
}

// Whether padding is not known to be absent.
#[unsafe(no_mangle)]
pub extern "C" fn lukaripe_requires_static_padding(layout: Layout) -> Number
    ensures { result ≡ decision_out (with_layout 64 layout (λ l. static_for 64 l)) }
{
    Number::from(DstLayout::try_from(layout).and_then(needs::requires_static_padding))
}

// Whether padding depends on the count.
#[unsafe(no_mangle)]
pub extern "C" fn lukaripe_requires_dynamic_padding(layout: Layout) -> Number
    ensures { result ≡ decision_out (with_layout 64 layout (λ l. dynamic_for 64 l)) }
{
    Number::from(DstLayout::try_from(layout).and_then(needs::requires_dynamic_padding))
}

// The layout of a record.
#[unsafe(no_mangle)]
pub extern "C" fn lukaripe_decode(bytes: &[u8]) -> LayoutOut
    ensures { result ≡ layout_out (decode_for 64 bytes.now) }
{
    LayoutOut::from(record::decode(bytes))
}

// The record of a layout into 48 lent bytes: the refusal number, and then no byte has changed.
#[unsafe(no_mangle)]
pub extern "C" fn lukaripe_encode(layout: Layout, out: &mut [u8]) -> u64
    ensures value { result ≡ refusal_out (encode_words_for 64 (words_given layout) (length out.old)) }
    ensures out_after { out.new ≡ encoded_words_into 64 (words_given layout) out.old }
{
    refusal_number(record::encode_words(Words::from(layout), out))
}

// The layout of a scalar.
#[unsafe(no_mangle)]
pub extern "C" fn lukaripe_scalar(code: u64) -> LayoutOut
    ensures { result ≡ layout_out (scalar_for target64 code) }
{
    LayoutOut::from(scalar::scalar(code))
}

// The layout of a member list before its closing padding.
#[unsafe(no_mangle)]
pub extern "C" fn lukaripe_compose(repr_align: u64, repr_packed: u64, members: &[u8]) -> ComposedOut
    ensures { result ≡ composed_out (compose_for 64 ported repr_align repr_packed members.now) }
{
    ComposedOut::from(compose::compose(repr_align, repr_packed, members))
}

// The layout of a member list.
#[unsafe(no_mangle)]
pub extern "C" fn lukaripe_for_repr_c_struct(
    repr_align: u64,
    repr_packed: u64,
    members: &[u8],
) -> ComposedOut
    ensures { result ≡ composed_out (struct_for 64 ported repr_align repr_packed members.now) }
{
    ComposedOut::from(compose::for_repr_c_struct(repr_align, repr_packed, members))
}
