// The conversion guarantee for C and Rust: no logic of its own. include/lukaripe.h is its C side. It stands apart, so that in the
// exports of casts and conversions each of these functions is called once, and inlined.
#![tactic(auto)]

ghost use Rattle.std.specs.Prelude.{◌≡◌};
ghost use Rattle.util.specs.View.{says};
ghost use Rattle.util_defs.specs.Refusal.{answered};
ghost use Rattle.trailing_defs.specs.Sequence.{same_sequence};
ghost use Rattle.shift_defs.specs.Mode.{comparison_of};
ghost use Rattle.shift.specs.View.{mode_of};
ghost use Rattle.guarantee.specs.Demand.{answers_of};
ghost use Rattle.guarantee.specs.View.{answers_in};
ghost use Rattle.exports_layouts.specs.Layouts.{with_layout};
ghost use Rattle.exports_guarantee.specs.Carried.{carried_out};

use exports_converts::{CastOut, CastParamsOut};
use exports_layouts::Layout;
use exports_numbers::Number;
use guarantee::Carried;
use layout::DstLayout;
use shift::Mode;
use util::Refusal;

#[repr(C)]
#[derive(Clone, Copy)]
pub struct CarriedOut {
    pub computed: CastParamsOut,
    pub count: Number,
    pub first: CastOut,
    pub second: CastOut,
}

// What the four calls of a conversion and of two casts gave; a layout that is refused refuses all four.
impl From<Result<Carried<u64>, Refusal>> for CarriedOut {
    ghost from_gives = { λ a out. out ≡ carried_out (says answers_in a) };

    fn from(a: Result<Carried<u64>, Refusal>) -> CarriedOut {
        let carried = a.unwrap_or_else(|refusal| Carried {
            computed: Err(refusal),
            count: Err(refusal),
            first: Err(refusal),
            second: Err(refusal),
        });
        CarriedOut {
            computed: CastParamsOut::from(carried.computed),
            count: Number::from(carried.count),
            first: CastOut::from(carried.first),
            second: CastOut::from(carried.second),
        }
    }
}

// Those calls in a mode. An export has its mode as a constant, which the compiler then drops.
pub fn convert_and_cast(
    src: Layout,
    dst: Layout,
    src_meta: u64,
    addr: u64,
    bytes_len: u64,
    more_len: u64,
    mode: Mode,
) -> Result<Carried<u64>, Refusal>
    ensures { says answers_in result ≡ with_layout 64 src (λ l. with_layout 64 dst (λ m.
        answered (answers_of 64 (comparison_of 64 (mode_of mode)) l m src_meta addr bytes_len more_len))) }
{
    let l = DstLayout::try_from(src)?;
    let m = DstLayout::try_from(dst)?;
    Ok(guarantee::convert_and_cast(l, m, src_meta, addr, bytes_len, more_len, mode))
}

// Converts src_meta elements, and casts bytes at addr to the target over two lengths.
#[unsafe(no_mangle)]
pub extern "C" fn lukaripe_convert_and_cast(
    src: Layout,
    dst: Layout,
    src_meta: u64,
    addr: u64,
    bytes_len: u64,
    more_len: u64,
) -> CarriedOut
    ensures { result ≡ carried_out (with_layout 64 src (λ l. with_layout 64 dst (λ m.
        answered (answers_of 64 (same_sequence 64) l m src_meta addr bytes_len more_len)))) }
{
    convert_and_cast(src, dst, src_meta, addr, bytes_len, more_len, Mode::Ported).into()
}
