// The functions of layouts and of scalars at 32 bits for C and Rust: no logic of their own. include/lukaripe32.h is their C
// side. C has each function by its name, so that none is an instance of a generic one.
#![tactic(auto)]

ghost use Rattle.layout.specs.View.{layout_of, layout_says};
ghost use Rattle.std.specs.Prelude.{◌≡◌, true, false};
ghost use Rattle.make.specs.Make.{new_zst_for, type_for, slice_for};
ghost use Rattle.layout_defs.specs.Extend.{extend_for};
ghost use Rattle.padding_defs.specs.Pad.{pad_for, static_for, dynamic_for};
ghost use Rattle.scalar.specs.Scalar.{scalar_for};
ghost use Rattle.record_defs.specs.Record.{words_of, words_for};
ghost use Rattle.record.specs.View.{words_in};
ghost use Rattle.scalar32.specs.Target.{target32};
ghost use Rattle.exports32_numbers.specs.Numbers.{decision_out32};
ghost use Rattle.exports32_layouts.specs.Layouts.{low_words, words_given32, words_out32, layout_out32};
ghost use Rattle.exports32_layouts.specs.Layouts.{with_layout32};

use exports32_numbers::Number32;
use layout::DstLayout;
use record::Words;
use util::Refusal;

// A layout, as the six words of its record. C has it by name, so that it has no type parameter.
#[repr(C)]
#[derive(Clone, Copy, Default)]
pub struct Layout32 {
    pub align: u32,
    pub kind: u32,
    // The size of a fixed layout, the base of a trailing one.
    pub size_base: u32,
    pub offset: u32,
    pub elem_size: u32,
    pub word: u32,
}

// C has it by value and by name, so that it is no Result and has no type parameter.
#[repr(C)]
#[derive(Clone, Copy)]
pub struct LayoutOut32 {
    pub refusal: u64,
    pub layout: Layout32,
}

// The words of a layout that was handed over.
impl From<Layout32> for Words {
    ghost from_gives = { λ given words. words_in words ≡ words_given32 given };

    fn from(l: Layout32) -> Words {
        Words {
            align: l.align as u64,
            kind: l.kind as u64,
            size: l.size_base as u64,
            offset: l.offset as u64,
            elem_size: l.elem_size as u64,
            word: l.word as u64,
        }
    }
}

// A layout that was handed over: its words are tested as a record's are.
impl TryFrom<Layout32> for DstLayout<u32> {
    type Error = Refusal;

    ghost try_from_gives = { λ given a. layout_says a ≡ words_for 32 (words_given32 given) };

    fn try_from(l: Layout32) -> Result<DstLayout<u32>, Refusal> {
        layouts32::low_answer(record::layout_from_words(Words::from(l)))
    }
}

// Words of 64 bits narrowed. No TryFrom, as `numbers32::low_word`.
fn low_words(words: Words) -> Layout32
    ensures { result ≡ words_out32 (low_words 32 (words_in words)) }
{
    Layout32 {
        align: numbers32::low_word(words.align),
        kind: numbers32::low_word(words.kind),
        size_base: numbers32::low_word(words.size),
        offset: numbers32::low_word(words.offset),
        elem_size: numbers32::low_word(words.elem_size),
        word: numbers32::low_word(words.word),
    }
}

// A layout that comes back: its words, which 32 bits hold.
impl From<DstLayout<u32>> for Layout32 {
    ghost from_gives = { λ l given. given ≡ words_out32 (words_of (layout_of l)) };

    fn from(l: DstLayout<u32>) -> Layout32 {
        low_words(record::words_from_layout(layouts32::wide_layout(l)))
    }
}

// A layout as it crosses to C.
impl From<Result<DstLayout<u32>, Refusal>> for LayoutOut32 {
    ghost from_gives = { λ a out. out ≡ layout_out32 (layout_says a) };

    #[inline(always)]
    fn from(a: Result<DstLayout<u32>, Refusal>) -> LayoutOut32 {
        match a {
            Ok(l) => LayoutOut32 {
                refusal: 0,
                layout: Layout32::from(l),
            },
            Err(refusal) => LayoutOut32 {
                refusal: refusal.number(),
                layout: Layout32::default(),
            },
        }
    }
}

// The empty layout.
#[unsafe(no_mangle)]
pub extern "C" fn lukaripe32_new_zst(repr_align: u32) -> LayoutOut32
    ensures { result ≡ layout_out32 (new_zst_for 32 repr_align) }
{
    LayoutOut32::from(layouts32::new_zst(repr_align))
}

// The layout of a type, its padding not known.
#[unsafe(no_mangle)]
pub extern "C" fn lukaripe32_for_type(size: u32, align: u32) -> LayoutOut32
    ensures { result ≡ layout_out32 (type_for 32 false size align) }
{
    LayoutOut32::from(layouts32::for_type(size, align))
}

// The layout of a type without padding.
#[unsafe(no_mangle)]
pub extern "C" fn lukaripe32_for_unpadded_type(size: u32, align: u32) -> LayoutOut32
    ensures { result ≡ layout_out32 (type_for 32 true size align) }
{
    LayoutOut32::from(layouts32::for_unpadded_type(size, align))
}

// The layout of a slice.
#[unsafe(no_mangle)]
pub extern "C" fn lukaripe32_for_slice(size: u32, align: u32) -> LayoutOut32
    ensures { result ≡ layout_out32 (slice_for 32 size align) }
{
    LayoutOut32::from(layouts32::for_slice(size, align))
}

// The layout with one member more.
#[unsafe(no_mangle)]
pub extern "C" fn lukaripe32_extend(
    layout: Layout32,
    field: Layout32,
    repr_packed: u32,
) -> LayoutOut32
    ensures { result ≡ layout_out32 (with_layout32 32 layout (λ l. with_layout32 32 field (λ m. extend_for 32 l m repr_packed))) }
{
    DstLayout::try_from(layout)
        .and_then(|l| DstLayout::try_from(field).and_then(|m| steps32::extend(l, m, repr_packed)))
        .into()
}

// The layout with its closing padding.
#[unsafe(no_mangle)]
pub extern "C" fn lukaripe32_pad_to_align(layout: Layout32) -> LayoutOut32
    ensures { result ≡ layout_out32 (with_layout32 32 layout (λ l. pad_for 32 l)) }
{
    LayoutOut32::from(DstLayout::try_from(layout).and_then(steps32::pad_to_align))
}

// Whether padding is not known to be absent.
#[unsafe(no_mangle)]
pub extern "C" fn lukaripe32_requires_static_padding(layout: Layout32) -> Number32
    ensures { result ≡ decision_out32 (with_layout32 32 layout (λ l. static_for 32 l)) }
{
    Number32::from(DstLayout::try_from(layout).and_then(layouts32::requires_static_padding))
}

// Whether padding depends on the count.
#[unsafe(no_mangle)]
pub extern "C" fn lukaripe32_requires_dynamic_padding(layout: Layout32) -> Number32
    ensures { result ≡ decision_out32 (with_layout32 32 layout (λ l. dynamic_for 32 l)) }
{
    Number32::from(DstLayout::try_from(layout).and_then(layouts32::requires_dynamic_padding))
}

// The layout of a scalar.
#[unsafe(no_mangle)]
pub extern "C" fn lukaripe32_scalar(code: u32) -> LayoutOut32
    ensures { result ≡ layout_out32 (scalar_for target32 code) }
{
    LayoutOut32::from(scalar32::scalar(code))
}
