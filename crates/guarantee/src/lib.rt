// The conversion guarantee, of what the calls of a conversion and of the casts after it return.
#![tactic(auto)]

ghost use Rattle.std.specs.Prelude.{◌≡◌};
ghost use Rattle.util.specs.View.{number_says};
ghost use Rattle.layout.specs.View.{layout_of};
ghost use Rattle.shift_defs.specs.Mode.{comparison_of};
ghost use Rattle.shift.specs.View.{mode_of};
ghost use Rattle.convert.specs.View.{compute_says};
ghost use Rattle.guarantee.specs.Demand.{count_after, answers_of, Demand3Of};
ghost use Rattle.guarantee.specs.View.{answers_in};

use cast::{CastType, Granted};
use convert::CastParamsInner;
use layout::DstLayout;
use shift::Mode;
use util::Refusal;

// The answers of a conversion of src_meta elements and of two prefix casts of its target.
#[derive(Clone, Copy)]
pub struct Carried<N> {
    pub computed: Result<CastParamsInner<N>, Refusal>,
    pub count: Result<N, Refusal>,
    pub first: Result<Granted<N>, Refusal>,
    pub second: Result<Granted<N>, Refusal>,
}

// The count that src_meta elements become, where there is a conversion; else its refusal.
fn converted_count(
    computed: Result<CastParamsInner<u64>, Refusal>,
    src_meta: u64,
) -> Result<u64, Refusal>
    ensures { number_says result ≡ count_after 64 (compute_says computed) src_meta }
{
    let params = computed?;
    carry::cast_metadata(params, src_meta)
}

// Converts src_meta elements of the first layout to the second, in one of the modes, and casts bytes at addr to the second over
// two lengths. What it promises of the four answers is the conversion guarantee of that mode.
pub fn convert_and_cast(
    src_layout: DstLayout<u64>,
    dst_layout: DstLayout<u64>,
    src_meta: u64,
    addr: u64,
    bytes_len: u64,
    more_len: u64,
    mode: Mode,
) -> Carried<u64>
    ensures answer { answers_in result ≡ answers_of 64 (comparison_of 64 (mode_of mode)) (layout_of src_layout)
        (layout_of dst_layout) src_meta addr bytes_len more_len }
    ensures meaning { Demand3Of 64 (comparison_of 64 (mode_of mode)) (layout_of src_layout) (layout_of dst_layout)
        src_meta addr bytes_len more_len (answers_in result) }
{
    let computed = convert::try_compute(src_layout, dst_layout, mode);
    let count = converted_count(computed, src_meta);
    let first = cast::validate_cast_and_convert_metadata(
        dst_layout,
        addr,
        bytes_len,
        CastType::Prefix,
    );
    let second = cast::validate_cast_and_convert_metadata(
        dst_layout,
        addr,
        more_len,
        CastType::Prefix,
    );
    Carried {
        computed,
        count,
        first,
        second,
    }
}
