// Scalars by code on the 32-bit target. A function of its own, and no instance of a generic one: this target has a table of its
// own, and an alignment that need not be the size, which at 64 bits there is no step for.
#![tactic(auto)]

ghost use Rattle.layout.specs.View.{layout_says};
ghost use Rattle.std.specs.Prelude.{◌≡◌, ◌<◌, min, get_or};
ghost use Rattle.util_defs.specs.Refusal.{Meets};
ghost use Rattle.scalar.specs.Scalar.{scalar_causes, scalar_layout, scalar_for};
ghost use Rattle.scalar32.specs.Target.{target32, greatest_scalar_align};

use layout::{DstLayout, SizeInfo};
use util::Refusal;

// The sizes of the scalars by code: powers of two, in two bits each, the first lowest.
const SCALAR_POWERS: u32 = 0b10_00_10_11_10_11_10_01_00;

const GREATEST_SCALAR_CODE: u32 = 8;

// A scalar of more bytes is aligned to this many.
const GREATEST_SCALAR_ALIGN: u32 = 4;

fn scalar_size(code: u32) -> u32
    requires { code < 9 }
    ensures { result ≡ get_or target32.sizes code 0 }
{
    let power = (SCALAR_POWERS >> (2 * code)) & 3;
    1 << power
}

fn scalar_align(size: u32) -> u32
    ensures { result ≡ min size greatest_scalar_align }
{
    size.min(GREATEST_SCALAR_ALIGN)
}

// The layout of a scalar.
pub fn scalar(code: u32) -> Result<DstLayout<u32>, Refusal>
    ensures answer { layout_says result ≡ scalar_for target32 code }
    ensures meaning { Meets (scalar_causes code) (λ l. l ≡ scalar_layout target32 code) (layout_says result) }
{
    if code > GREATEST_SCALAR_CODE {
        return Err(Refusal::ScalarCode);
    }
    let size = scalar_size(code);
    Ok(DstLayout {
        align: scalar_align(size),
        size_info: SizeInfo::Sized { size },
        statically_shallow_unpadded: true,
        align_modifier: false,
    })
}
