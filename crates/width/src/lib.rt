// The two widths of words, and the steps of a loop that serves both: over layouts of 64-bit numbers, the greatest number being
// that of the width.
#![tactic(auto)]

ghost use Rattle.std.specs.Prelude.{◌≡◌, Bool, true, false};
ghost use Rattle.layout.specs.View.{layout_of, layout_says};
ghost use Rattle.scalar.specs.Scalar.{scalar_for};
ghost use Rattle.width.specs.Width.{bits_of, target_of, width_extend, width_pad, width_array};

use layout::DstLayout;
use scalar::GREATEST_SCALAR_CODE;
use util::Refusal;

#[derive(Clone, Copy)]
pub enum Width {
    Bits32,
    Bits64,
}

// The steps at a width, by the type of its numbers. The loop of describe takes this type, so that there is one of each width, in
// which what the other needs is gone. Not `Steps`, whose layouts are of the width's own numbers: a step would widen and narrow.
pub trait AtWidth {
    // Whether it is the narrow one.
    ghost narrow: { Bool };

    // The bits of a word.
    fn bits() -> u8
        ensures { result ≡ bits_of narrow };

    // The layout with one member more.
    fn extend(
        own: DstLayout<u64>,
        field: DstLayout<u64>,
        repr_packed: u64,
    ) -> Result<DstLayout<u64>, Refusal>
        ensures { layout_says result ≡ width_extend narrow (layout_of own) (layout_of field) repr_packed };

    // The layout with its size rounded up to its alignment at every count.
    fn pad_to_align(layout: DstLayout<u64>) -> Result<DstLayout<u64>, Refusal>
        ensures { layout_says result ≡ width_pad narrow (layout_of layout) };

    // The layout of an array.
    fn for_array(elem: DstLayout<u64>, count: u64) -> Result<DstLayout<u64>, Refusal>
        ensures { layout_says result ≡ width_array narrow (layout_of elem) count };

    // The layout of a scalar, by its code.
    fn scalar(code: u64) -> Result<DstLayout<u64>, Refusal>
        ensures { layout_says result ≡ scalar_for (target_of narrow) code };
}

impl AtWidth for u64 {
    ghost narrow = { false };

    fn bits() -> u8 {
        64
    }

    fn extend(
        own: DstLayout<u64>,
        field: DstLayout<u64>,
        repr_packed: u64,
    ) -> Result<DstLayout<u64>, Refusal> {
        extend::extend(own, field, repr_packed)
    }

    fn pad_to_align(layout: DstLayout<u64>) -> Result<DstLayout<u64>, Refusal> {
        padding::pad_to_align(layout)
    }

    fn for_array(elem: DstLayout<u64>, count: u64) -> Result<DstLayout<u64>, Refusal> {
        elements::for_array(elem, count)
    }

    fn scalar(code: u64) -> Result<DstLayout<u64>, Refusal> {
        scalar::scalar(code)
    }
}

impl AtWidth for u32 {
    ghost narrow = { true };

    fn bits() -> u8 {
        32
    }

    fn extend(
        own: DstLayout<u64>,
        field: DstLayout<u64>,
        repr_packed: u64,
    ) -> Result<DstLayout<u64>, Refusal> {
        steps32::extend_within(own, field, repr_packed, numbers32::MAX)
    }

    fn pad_to_align(layout: DstLayout<u64>) -> Result<DstLayout<u64>, Refusal> {
        steps32::pad_within(layout, numbers32::MAX)
    }

    fn for_array(elem: DstLayout<u64>, count: u64) -> Result<DstLayout<u64>, Refusal> {
        elements32::array_within(elem, count, numbers32::MAX)
    }

    fn scalar(code: u64) -> Result<DstLayout<u64>, Refusal> {
        if code > GREATEST_SCALAR_CODE {
            Err(Refusal::ScalarCode)
        } else {
            wide_answer(scalar32::scalar(code as u32))
        }
    }
}

// A layout of 32 bits as one of 64. No From: neither the trait nor a type of the impl would be of this crate.
fn wide_answer(answer: Result<DstLayout<u32>, Refusal>) -> Result<DstLayout<u64>, Refusal>
    ensures { layout_says result ≡ layout_says answer }
{
    answer.map(layouts32::wide_layout)
}
