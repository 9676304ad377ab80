// The full comparison of sizes and the normal form for C and Rust: no logic of their own. include/lukaripe.h is their C side.
#![tactic(auto)]

ghost use Rattle.std.specs.Prelude.{◌≡◌};
ghost use Rattle.full_defs.specs.Full.{agree_for};
ghost use Rattle.full_defs.specs.Form.{form_for};
ghost use Rattle.full.specs.View.{form_says};
ghost use Rattle.exports_numbers.specs.Numbers.{decision_out, trailing_in};
ghost use Rattle.exports_full.specs.Forms.{form_out};

use exports_numbers::{Number, Trailing};
use full::NormalForm;
use trailing::TrailingSliceLayout;
use util::Refusal;

// A normal form has no offset and no alignment. C has it by value, so that it is no Result.
#[repr(C)]
#[derive(Clone, Copy, Default)]
pub struct NormalFormOut {
    pub refusal: u64,
    pub size_base: u64,
    pub elem_size: u64,
    pub word: u64,
}

// A normal form, or the refusal.
impl From<Result<NormalForm<u64>, Refusal>> for NormalFormOut {
    ghost from_gives = { λ a out. out ≡ form_out (form_says a) };

    fn from(a: Result<NormalForm<u64>, Refusal>) -> NormalFormOut {
        match a {
            Ok(form) => {
                let word = form.size_rounding_align_and_phase;
                NormalFormOut {
                    refusal: 0,
                    size_base: form.size_base,
                    elem_size: form.elem_size,
                    word: word.0,
                }
            }
            Err(refusal) => NormalFormOut {
                refusal: refusal.number(),
                ..NormalFormOut::default()
            },
        }
    }
}

// Whether two layouts have the same size at every count.
#[unsafe(no_mangle)]
pub extern "C" fn lukaripe_sizes_agree(first: Trailing, second: Trailing) -> Number
    ensures { result ≡ decision_out (agree_for 64 (trailing_in first) (trailing_in second)) }
{
    Number::from(full::sizes_agree(
        TrailingSliceLayout::from(first),
        TrailingSliceLayout::from(second),
    ))
}

// The normal form of a trailing layout.
#[unsafe(no_mangle)]
pub extern "C" fn lukaripe_normal_form(layout: Trailing) -> NormalFormOut
    ensures { result ≡ form_out (form_for 64 (trailing_in layout)) }
{
    NormalFormOut::from(full::normal_form(TrailingSliceLayout::from(layout)))
}
