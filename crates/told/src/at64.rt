// The answers and inputs of the exports at 64 bits.
ghost use Rattle.told.specs.At64.{number_numbers, components_numbers, trailing_numbers, form_numbers};
ghost use Rattle.told.specs.At64.{padding_numbers, layout_numbers, composed_numbers, cast_numbers, params_numbers};
ghost use Rattle.told.specs.At64.{serving_numbers, carried_numbers, trailing_at, layout_at, params_at};

use crate::{FromLine, Tells, number_behind};
use exports_converts::{CastOut, CastParams, CastParamsOut};
use exports_front::ServingOut;
use exports_full::NormalFormOut;
use exports_guarantee::CarriedOut;
use exports_layouts::{ComposedOut, Layout, LayoutOut};
use exports_numbers::{Components, Number, Trailing, TrailingAnswer};
use exports_share::PaddingOut;
use recorded::{Told, WIDTH};

impl Tells for Number {
    ghost numbers = { number_numbers };

    fn told(self, inputs: usize) -> Told {
        Told::new(inputs, &[self.refusal, self.value])
    }
}

impl Tells for Components {
    ghost numbers = { components_numbers };

    fn told(self, inputs: usize) -> Told {
        Told::new(inputs, &[self.refusal, self.align, self.phase])
    }
}

impl Tells for TrailingAnswer {
    ghost numbers = { trailing_numbers };

    fn told(self, inputs: usize) -> Told {
        let t = self.layout;
        Told::new(
            inputs,
            &[self.refusal, t.size_base, t.offset, t.elem_size, t.word],
        )
    }
}

impl Tells for NormalFormOut {
    ghost numbers = { form_numbers };

    fn told(self, inputs: usize) -> Told {
        Told::new(
            inputs,
            &[self.refusal, self.size_base, self.elem_size, self.word],
        )
    }
}

impl Tells for PaddingOut {
    ghost numbers = { padding_numbers };

    fn told(self, inputs: usize) -> Told {
        Told::new(
            inputs,
            &[
                self.refusal,
                self.place,
                self.padding_numerator,
                self.padding_denominator,
                self.mean_numerator,
                self.mean_denominator,
                self.greatest,
                self.index,
            ],
        )
    }
}

impl Tells for LayoutOut {
    ghost numbers = { layout_numbers };

    fn told(self, inputs: usize) -> Told {
        let l = self.layout;
        Told::new(
            inputs,
            &[
                self.refusal,
                l.align,
                l.kind,
                l.size_base,
                l.offset,
                l.elem_size,
                l.word,
            ],
        )
    }
}

impl Tells for ComposedOut {
    ghost numbers = { composed_numbers };

    fn told(self, inputs: usize) -> Told {
        let layout = self.layout;
        Told::new(
            inputs,
            &[
                self.refusal,
                self.place,
                layout.align,
                layout.kind,
                layout.size_base,
                layout.offset,
                layout.elem_size,
                layout.word,
            ],
        )
    }
}

impl Tells for CastOut {
    ghost numbers = { cast_numbers };

    fn told(self, inputs: usize) -> Told {
        Told::new(inputs, &[self.refusal, self.count, self.split])
    }
}

impl Tells for CastParamsOut {
    ghost numbers = { params_numbers };

    fn told(self, inputs: usize) -> Told {
        Told::new(
            inputs,
            &[
                self.refusal,
                self.params.kind,
                self.params.offset_delta_elems,
                self.params.elem_multiple,
                self.params.dst_meta,
            ],
        )
    }
}

impl Tells for ServingOut {
    ghost numbers = { serving_numbers };

    fn told(self, inputs: usize) -> Told {
        Told::new(
            inputs,
            &[
                self.map_refusal,
                self.spare_refusal,
                self.serves,
                self.count,
                self.split,
            ],
        )
    }
}

impl Tells for CarriedOut {
    ghost numbers = { carried_numbers };

    fn told(self, inputs: usize) -> Told {
        Told::new(
            inputs,
            &[
                self.computed.refusal,
                self.computed.params.kind,
                self.computed.params.offset_delta_elems,
                self.computed.params.elem_multiple,
                self.computed.params.dst_meta,
                self.count.refusal,
                self.count.value,
                self.first.refusal,
                self.first.count,
                self.first.split,
                self.second.refusal,
                self.second.count,
                self.second.split,
            ],
        )
    }
}

impl FromLine for Trailing {
    ghost standing = { trailing_at };

    fn at(line: &[u64; WIDTH], from: usize) -> Trailing {
        Trailing {
            size_base: number_behind(line, from, 0),
            offset: number_behind(line, from, 1),
            elem_size: number_behind(line, from, 2),
            word: number_behind(line, from, 3),
        }
    }
}

impl FromLine for Layout {
    ghost standing = { layout_at };

    fn at(line: &[u64; WIDTH], from: usize) -> Layout {
        Layout {
            align: number_behind(line, from, 0),
            kind: number_behind(line, from, 1),
            size_base: number_behind(line, from, 2),
            offset: number_behind(line, from, 3),
            elem_size: number_behind(line, from, 4),
            word: number_behind(line, from, 5),
        }
    }
}

impl FromLine for CastParams {
    ghost standing = { params_at };

    fn at(line: &[u64; WIDTH], from: usize) -> CastParams {
        CastParams {
            kind: number_behind(line, from, 0),
            offset_delta_elems: number_behind(line, from, 1),
            elem_multiple: number_behind(line, from, 2),
            dst_meta: number_behind(line, from, 3),
        }
    }
}
