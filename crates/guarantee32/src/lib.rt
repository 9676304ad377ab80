// The conversion guarantee at 32 bits, of what the calls of a conversion and of the casts after it return.
// No trait of a width: of the two conversions it needs six heads and three views, more lines than these two functions have.
#![tactic(auto)]

ghost use Rattle.guarantee.specs.View.{answers_in};
ghost use Rattle.convert.specs.View.{compute_says};
ghost use Rattle.layout.specs.View.{layout_of};
ghost use Rattle.util.specs.View.{number_says};
ghost use Rattle.std.specs.Prelude.{◌≡◌};
ghost use Rattle.shift_defs.specs.Mode.{comparison_of};
ghost use Rattle.shift.specs.View.{mode_of};
ghost use Rattle.guarantee.specs.Demand.{count_after, answers_of, Demand3Of};

use cast::CastType;
use convert::CastParamsInner;
use guarantee::Carried;
use layout::DstLayout;
use shift::Mode;
use util::Refusal;

// The count that src_meta elements become, where there is a conversion; else its refusal.
fn converted_count(
    computed: Result<CastParamsInner<u32>, Refusal>,
    src_meta: u32,
) -> Result<u32, Refusal>
    ensures { number_says result ≡ count_after 32 (compute_says computed) src_meta }
{
    let params = computed?;
    converts32::cast_metadata(params, src_meta)
}

// Converts src_meta elements of the first layout to the second, in one of the modes, and casts bytes at addr to the second over
// two lengths. What it promises of the four answers is the conversion guarantee of that mode.
pub fn convert_and_cast(
    src_layout: DstLayout<u32>,
    dst_layout: DstLayout<u32>,
    src_meta: u32,
    addr: u32,
    bytes_len: u32,
    more_len: u32,
    mode: Mode,
) -> Carried<u32>
    ensures answer { answers_in result ≡ answers_of 32 (comparison_of 32 (mode_of mode)) (layout_of src_layout)
        (layout_of dst_layout) src_meta addr bytes_len more_len }
    ensures meaning { Demand3Of 32 (comparison_of 32 (mode_of mode)) (layout_of src_layout) (layout_of dst_layout)
        src_meta addr bytes_len more_len (answers_in result) }
{
    let computed = converts32::try_compute(src_layout, dst_layout, mode);
    let count = converted_count(computed, src_meta);
    let first = casts32::validate_cast_and_convert_metadata(
        dst_layout,
        addr,
        bytes_len,
        CastType::Prefix,
    );
    let second = casts32::validate_cast_and_convert_metadata(
        dst_layout,
        addr,
        more_len,
        CastType::Prefix,
    );
    Carried {
        computed,
        count,
        first,
        second,
    }
}
