// Scalars by code.
#![tactic(auto)]

ghost use Rattle.std.specs.Prelude.{◌≡◌, ◌<◌, get_or};
ghost use Rattle.util_defs.specs.Refusal.{Meets};
ghost use Rattle.layout.specs.View.{layout_says};
ghost use Rattle.scalar.specs.Scalar.{target64, scalar_causes, scalar_layout, scalar_for};

use layout::{DstLayout, SizeInfo};
use util::Refusal;

// The sizes of the scalars by code, which are their alignments too: powers of two, in two bits each, the first lowest.
const SCALAR_POWERS: u64 = 0b11_00_10_11_10_11_10_01_00;

pub const GREATEST_SCALAR_CODE: u64 = 8;

fn scalar_size(code: u64) -> u64
    requires { code < 9 }
    ensures { result ≡ get_or target64.sizes code 0 }
{
    let power = (SCALAR_POWERS >> (2 * code)) & 3;
    1 << power
}

// The layout of a scalar.
pub fn scalar(code: u64) -> Result<DstLayout<u64>, Refusal>
    ensures answer { layout_says result ≡ scalar_for target64 code }
    ensures meaning { Meets (scalar_causes code) (λ l. l ≡ scalar_layout target64 code) (layout_says result) }
{
    if code > GREATEST_SCALAR_CODE {
        return Err(Refusal::ScalarCode);
    }
    let size = scalar_size(code);
    Ok(DstLayout {
        align: size,
        size_info: SizeInfo::Sized { size },
        statically_shallow_unpadded: true,
        align_modifier: false,
    })
}
