// The conversion guarantee at 32 bits for C and Rust: no logic of its own. include/lukaripe32.h is its C side. It stands
// apart, so that in the exports of casts and conversions each of these functions is called once, and inlined. C has each
// function by its name, so that none is an instance of a generic one; nor is what stands beside them over the structs that
// it has by name.
#![tactic(auto)]

ghost use Rattle.guarantee.specs.View.{answers_in};
ghost use Rattle.std.specs.Prelude.{◌≡◌};
ghost use Rattle.util.specs.View.{says};
ghost use Rattle.util_defs.specs.Refusal.{answered};
ghost use Rattle.trailing_defs.specs.Sequence.{same_sequence};
ghost use Rattle.shift_defs.specs.Mode.{comparison_of};
ghost use Rattle.shift.specs.View.{mode_of};
ghost use Rattle.guarantee.specs.Demand.{answers_of};
ghost use Rattle.exports32_layouts.specs.Layouts.{with_layout32};
ghost use Rattle.exports32_guarantee.specs.Carried.{carried_out32};

use exports32_converts::{CastOut32, CastParamsOut32};
use exports32_layouts::Layout32;
use exports32_numbers::Number32;
use guarantee::Carried;
use layout::DstLayout;
use shift::Mode;
use util::Refusal;

// C has it by name, so that it has no type parameter.
#[repr(C)]
#[derive(Clone, Copy)]
pub struct CarriedOut32 {
    pub computed: CastParamsOut32,
    pub count: Number32,
    pub first: CastOut32,
    pub second: CastOut32,
}

// What the four calls of a conversion and of two casts gave; a layout that is refused refuses all four.
impl From<Result<Carried<u32>, Refusal>> for CarriedOut32 {
    ghost from_gives = { λ a out. out ≡ carried_out32 (says answers_in a) };

    fn from(a: Result<Carried<u32>, Refusal>) -> CarriedOut32 {
        let carried = a.unwrap_or_else(|refusal| Carried {
            computed: Err(refusal),
            count: Err(refusal),
            first: Err(refusal),
            second: Err(refusal),
        });
        CarriedOut32 {
            computed: CastParamsOut32::from(carried.computed),
            count: Number32::from(carried.count),
            first: CastOut32::from(carried.first),
            second: CastOut32::from(carried.second),
        }
    }
}

// Those calls in a mode. An export has its mode as a constant, which the compiler then drops.
pub fn convert_and_cast(
    src: Layout32,
    dst: Layout32,
    src_meta: u32,
    addr: u32,
    bytes_len: u32,
    more_len: u32,
    mode: Mode,
) -> Result<Carried<u32>, Refusal>
    ensures { says answers_in result ≡ with_layout32 32 src (λ l. with_layout32 32 dst (λ m.
        answered (answers_of 32 (comparison_of 32 (mode_of mode)) l m src_meta addr bytes_len more_len))) }
{
    let l = DstLayout::try_from(src)?;
    let m = DstLayout::try_from(dst)?;
    Ok(guarantee32::convert_and_cast(l, m, src_meta, addr, bytes_len, more_len, mode))
}

// Converts src_meta elements, and casts bytes at addr to the target over two lengths.
#[unsafe(no_mangle)]
pub extern "C" fn lukaripe32_convert_and_cast(
    src: Layout32,
    dst: Layout32,
    src_meta: u32,
    addr: u32,
    bytes_len: u32,
    more_len: u32,
) -> CarriedOut32
    ensures { result ≡ carried_out32 (with_layout32 32 src (λ l. with_layout32 32 dst (λ m.
        answered (answers_of 32 (same_sequence 32) l m src_meta addr bytes_len more_len)))) }
{
    convert_and_cast(src, dst, src_meta, addr, bytes_len, more_len, Mode::Ported).into()
}
