// Casts at 32 bits, by those at 64. An address that passes 32 bits with the length is given to them as one that passes 64,
// so that it is refused in its turn. Each call at 32 bits is a function of its own, and no instance of a generic one: it
// widens what it is given, calls that of 64 bits, and of numbers that come back narrows or refuses those, and at 64 bits
// there would be none of these steps.
#![tactic(auto)]

ghost use Rattle.layout.specs.View.{layout_of};
ghost use Rattle.util.specs.View.{number_says};
ghost use Rattle.std.specs.Prelude.{◌≡◌};
ghost use Rattle.util_defs.specs.Refusal.{Meets};
ghost use Rattle.cast_defs.specs.Cast.{cast_causes, cast_for, GrantMeans};
ghost use Rattle.cast_defs.specs.Exact.{exact_causes, exact_for, ExactIn};
ghost use Rattle.cast.specs.View.{side_of, cast_says};
ghost use Rattle.widths_defs.specs.Low.{mapped};
ghost use Rattle.widths_casts_defs.specs.Low.{low_grant};
ghost use Rattle.widths_casts_defs.specs.Within.{far_address};

use cast::{CastType, Granted};
use layout::DstLayout;
use util::Refusal;

// A grant of 64 bits narrowed. No From: neither the trait nor a type of the impl would be of this crate.
fn low_grant(answer: Result<Granted<u64>, Refusal>) -> Result<Granted<u32>, Refusal>
    ensures { cast_says result ≡ mapped (low_grant 32) (cast_says answer) }
{
    answer.map(|granted| Granted {
        elems: numbers32::low_word(granted.elems),
        split_at: numbers32::low_word(granted.split_at),
    })
}

fn far_address(addr: u32, len: u64) -> u64
    ensures { result ≡ far_address 32 64 addr len }
{
    let addr = addr as u64;
    if numbers32::MAX - addr < len {
        u64::MAX
    } else {
        addr
    }
}

// A cast of any number of bytes: one above 2^32 - 1 is refused in its turn, whatever the address.
pub fn cast_bytes(
    layout: DstLayout<u32>,
    addr: u32,
    bytes_len: u64,
    cast_type: CastType,
) -> Result<Granted<u32>, Refusal>
    ensures answer { cast_says result ≡ cast_for 32 (layout_of layout) (side_of cast_type) addr bytes_len }
    ensures meaning { Meets (cast_causes 32 (layout_of layout) (side_of cast_type) addr bytes_len)
        (GrantMeans 32 (layout_of layout).info (side_of cast_type) bytes_len) (cast_says result) }
{
    low_grant(cast::validate_cast_and_convert_metadata(
        layouts32::wide_layout(layout),
        far_address(addr, bytes_len),
        bytes_len,
        cast_type,
    ))
}

// The greatest count of elements that the bytes hold, and where the bytes split.
pub fn validate_cast_and_convert_metadata(
    layout: DstLayout<u32>,
    addr: u32,
    bytes_len: u32,
    cast_type: CastType,
) -> Result<Granted<u32>, Refusal>
    ensures answer { cast_says result ≡ cast_for 32 (layout_of layout) (side_of cast_type) addr bytes_len }
    ensures meaning { Meets (cast_causes 32 (layout_of layout) (side_of cast_type) addr bytes_len)
        (GrantMeans 32 (layout_of layout).info (side_of cast_type) bytes_len) (cast_says result) }
{
    cast_bytes(layout, addr, bytes_len as u64, cast_type)
}

// The greatest count whose size is exactly size.
pub fn metadata_for_exact_size(layout: DstLayout<u32>, size: u32) -> Result<u32, Refusal>
    ensures answer { number_says result ≡ exact_for 32 (layout_of layout) size }
    ensures meaning { Meets (exact_causes 32 (layout_of layout) size) (ExactIn 32 (layout_of layout).info size)
        (number_says result) }
{
    numbers32::low_number(cast::metadata_for_exact_size(
        layouts32::wide_layout(layout),
        size as u64,
    ))
}
