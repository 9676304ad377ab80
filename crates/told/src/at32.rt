// The answers and inputs of the exports at 32 bits. C has each of these types by its name, so that each has an impl of its own.
ghost use Rattle.told.specs.At32.{number_numbers32, components_numbers32, trailing_numbers32, form_numbers32};
ghost use Rattle.told.specs.At32.{padding_numbers32, layout_numbers32, composed_numbers32, cast_numbers32};
ghost use Rattle.told.specs.At32.{params_numbers32, serving_numbers32, carried_numbers32, trailing_at32};
ghost use Rattle.told.specs.At32.{layout_at32, params_at32};

use crate::{FromLine, Tells, number_behind};
use exports32_converts::{CastOut32, CastParams32, CastParamsOut32};
use exports32_front::ServingOut32;
use exports32_full::NormalFormOut32;
use exports32_guarantee::CarriedOut32;
use exports32_layouts::{Layout32, LayoutOut32};
use exports32_lists::ComposedOut32;
use exports32_numbers::{Components32, Number32, Trailing32, TrailingAnswer32};
use exports32_share::PaddingOut32;
use numbers32::low_word;
use recorded::{Told, WIDTH};

impl Tells for Number32 {
    ghost numbers = { number_numbers32 };

    fn told(self, inputs: usize) -> Told {
        Told::new(inputs, &[self.refusal, self.value as u64])
    }
}

impl Tells for Components32 {
    ghost numbers = { components_numbers32 };

    fn told(self, inputs: usize) -> Told {
        Told::new(
            inputs,
            &[self.refusal, self.align as u64, self.phase as u64],
        )
    }
}

impl Tells for TrailingAnswer32 {
    ghost numbers = { trailing_numbers32 };

    fn told(self, inputs: usize) -> Told {
        let t = self.layout;
        Told::new(
            inputs,
            &[
                self.refusal,
                t.size_base as u64,
                t.offset as u64,
                t.elem_size as u64,
                t.word as u64,
            ],
        )
    }
}

impl Tells for NormalFormOut32 {
    ghost numbers = { form_numbers32 };

    fn told(self, inputs: usize) -> Told {
        Told::new(
            inputs,
            &[
                self.refusal,
                self.size_base as u64,
                self.elem_size as u64,
                self.word as u64,
            ],
        )
    }
}

impl Tells for PaddingOut32 {
    ghost numbers = { padding_numbers32 };

    fn told(self, inputs: usize) -> Told {
        Told::new(
            inputs,
            &[
                self.refusal,
                self.place,
                self.padding_numerator as u64,
                self.padding_denominator as u64,
                self.mean_numerator as u64,
                self.mean_denominator,
                self.greatest as u64,
                self.index,
            ],
        )
    }
}

impl Tells for LayoutOut32 {
    ghost numbers = { layout_numbers32 };

    fn told(self, inputs: usize) -> Told {
        let l = self.layout;
        Told::new(
            inputs,
            &[
                self.refusal,
                l.align as u64,
                l.kind as u64,
                l.size_base as u64,
                l.offset as u64,
                l.elem_size as u64,
                l.word as u64,
            ],
        )
    }
}

impl Tells for ComposedOut32 {
    ghost numbers = { composed_numbers32 };

    fn told(self, inputs: usize) -> Told {
        let layout = self.layout;
        Told::new(
            inputs,
            &[
                self.refusal,
                self.place,
                layout.align as u64,
                layout.kind as u64,
                layout.size_base as u64,
                layout.offset as u64,
                layout.elem_size as u64,
                layout.word as u64,
            ],
        )
    }
}

impl Tells for CastOut32 {
    ghost numbers = { cast_numbers32 };

    fn told(self, inputs: usize) -> Told {
        Told::new(
            inputs,
            &[self.refusal, self.count as u64, self.split as u64],
        )
    }
}

impl Tells for CastParamsOut32 {
    ghost numbers = { params_numbers32 };

    fn told(self, inputs: usize) -> Told {
        Told::new(
            inputs,
            &[
                self.refusal,
                self.params.kind as u64,
                self.params.offset_delta_elems as u64,
                self.params.elem_multiple as u64,
                self.params.dst_meta as u64,
            ],
        )
    }
}

impl Tells for ServingOut32 {
    ghost numbers = { serving_numbers32 };

    fn told(self, inputs: usize) -> Told {
        Told::new(
            inputs,
            &[
                self.map_refusal,
                self.spare_refusal,
                self.serves as u64,
                self.count as u64,
                self.split as u64,
            ],
        )
    }
}

impl Tells for CarriedOut32 {
    ghost numbers = { carried_numbers32 };

    fn told(self, inputs: usize) -> Told {
        Told::new(
            inputs,
            &[
                self.computed.refusal,
                self.computed.params.kind as u64,
                self.computed.params.offset_delta_elems as u64,
                self.computed.params.elem_multiple as u64,
                self.computed.params.dst_meta as u64,
                self.count.refusal,
                self.count.value as u64,
                self.first.refusal,
                self.first.count as u64,
                self.first.split as u64,
                self.second.refusal,
                self.second.count as u64,
                self.second.split as u64,
            ],
        )
    }
}

impl FromLine for Trailing32 {
    ghost standing = { trailing_at32 };

    fn at(line: &[u64; WIDTH], from: usize) -> Trailing32 {
        Trailing32 {
            size_base: low_word(number_behind(line, from, 0)),
            offset: low_word(number_behind(line, from, 1)),
            elem_size: low_word(number_behind(line, from, 2)),
            word: low_word(number_behind(line, from, 3)),
        }
    }
}

impl FromLine for Layout32 {
    ghost standing = { layout_at32 };

    fn at(line: &[u64; WIDTH], from: usize) -> Layout32 {
        Layout32 {
            align: low_word(number_behind(line, from, 0)),
            kind: low_word(number_behind(line, from, 1)),
            size_base: low_word(number_behind(line, from, 2)),
            offset: low_word(number_behind(line, from, 3)),
            elem_size: low_word(number_behind(line, from, 4)),
            word: low_word(number_behind(line, from, 5)),
        }
    }
}

impl FromLine for CastParams32 {
    ghost standing = { params_at32 };

    fn at(line: &[u64; WIDTH], from: usize) -> CastParams32 {
        CastParams32 {
            kind: low_word(number_behind(line, from, 0)),
            offset_delta_elems: low_word(number_behind(line, from, 1)),
            elem_multiple: low_word(number_behind(line, from, 2)),
            dst_meta: low_word(number_behind(line, from, 3)),
        }
    }
}
