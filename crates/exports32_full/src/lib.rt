// The full comparison of sizes and the normal form at 32 bits for C and Rust: no logic of their own. include/lukaripe32.h is
// their C side. C has each function by its name, so that none is an instance of a generic one.
#![tactic(auto)]

ghost use Rattle.full.specs.View.{form_says};
ghost use Rattle.std.specs.Prelude.{◌≡◌};
ghost use Rattle.full_defs.specs.Full.{agree_for};
ghost use Rattle.full_defs.specs.Form.{form_for};
ghost use Rattle.exports32_numbers.specs.Numbers.{decision_out32, trailing_in32};
ghost use Rattle.exports32_full.specs.Forms.{form_out32};

use exports32_numbers::{Number32, Trailing32};
use full::NormalForm;
use trailing::TrailingSliceLayout;
use util::Refusal;

// A normal form has no offset and no alignment. C has it by value and by name, so that it is no Result and has no type
// parameter.
#[repr(C)]
#[derive(Clone, Copy, Default)]
pub struct NormalFormOut32 {
    pub refusal: u64,
    pub size_base: u32,
    pub elem_size: u32,
    pub word: u32,
}

// A normal form, or the refusal.
impl From<Result<NormalForm<u32>, Refusal>> for NormalFormOut32 {
    ghost from_gives = { λ a out. out ≡ form_out32 (form_says a) };

    fn from(a: Result<NormalForm<u32>, Refusal>) -> NormalFormOut32 {
        match a {
            Ok(form) => {
                let word = form.size_rounding_align_and_phase;
                NormalFormOut32 {
                    refusal: 0,
                    size_base: form.size_base,
                    elem_size: form.elem_size,
                    word: word.0,
                }
            }
            Err(refusal) => NormalFormOut32 {
                refusal: refusal.number(),
                ..NormalFormOut32::default()
            },
        }
    }
}

// Whether two layouts have the same size at every count.
#[unsafe(no_mangle)]
pub extern "C" fn lukaripe32_sizes_agree(first: Trailing32, second: Trailing32) -> Number32
    ensures { result ≡ decision_out32 (agree_for 32 (trailing_in32 first) (trailing_in32 second)) }
{
    Number32::from(sequence32::sizes_agree(
        TrailingSliceLayout::from(first),
        TrailingSliceLayout::from(second),
    ))
}

// The normal form of a trailing layout.
#[unsafe(no_mangle)]
pub extern "C" fn lukaripe32_normal_form(layout: Trailing32) -> NormalFormOut32
    ensures { result ≡ form_out32 (form_for 32 (trailing_in32 layout)) }
{
    NormalFormOut32::from(sequence32::normal_form(TrailingSliceLayout::from(layout)))
}
