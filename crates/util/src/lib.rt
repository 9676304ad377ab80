// Rounding helpers, after four functions of zerocopy's src/util/mod.rs, and what every crate uses: the refusal numbers, and
// alignments that are known to be powers of two.
#![tactic(auto)]

ghost use Rattle.std.specs.Prelude.{◌≡◌, ◌*◌, ◌%◌, ◌^◌};
ghost use Rattle.util_defs.specs.Width.{checked};
ghost use Rattle.util_defs.specs.Power.{PowerOfTwo, power_of_two};
ghost use Rattle.util_defs.specs.Round.{GreatestMultiple, LeastPadding};
ghost use Rattle.util_defs.specs.Refusal.{Tells, Meets};
ghost use Rattle.util_defs.specs.Helpers.{align_causes, aligns_causes, padding_for, round_down_for, max_for};
ghost use Rattle.util_defs.specs.Helpers.{min_for, Larger, Smaller};
ghost use Rattle.util.specs.View.{number_says, product_says};

mod align;
mod refusal;

pub use align::Align;
pub use refusal::{Refusal, RefusedAt};

// Whether a is a power of two: it is not 0 and has one bit.
pub fn is_power_of_two(a: u64) -> bool
    ensures answer { result ≡ power_of_two 64 a }
    ensures meaning { Tells (PowerOfTwo a) result }
{
    if a == 0 {
        return false;
    }
    a & (a - 1) == 0
}

// The bytes needed to pad len to the next multiple of align.
pub fn padding_needed_for(len: u64, align: u64) -> Result<u64, Refusal>
    ensures answer { number_says result ≡ padding_for 64 len align }
    ensures meaning { Meets (align_causes 64 align) (LeastPadding 64 len align) (number_says result) }
{
    let align = Align::new(align)?;
    Ok(align.padding_needed(len))
}

// The greatest multiple of align that is at most n.
pub fn round_down_to_next_multiple_of_alignment(n: u64, align: u64) -> Result<u64, Refusal>
    ensures answer { number_says result ≡ round_down_for 64 n align }
    ensures meaning { Meets (align_causes 64 align) (GreatestMultiple n align) (number_says result) }
{
    let align = Align::new(align)?;
    Ok(align.round_down(n))
}

// The larger of two alignments.
pub fn max(a: u64, b: u64) -> Result<u64, Refusal>
    ensures answer { number_says result ≡ max_for 64 a b }
    ensures meaning { Meets (aligns_causes 64 a b) (Larger a b) (number_says result) }
{
    let a = Align::new(a)?;
    let b = Align::new(b)?;
    Ok(a.value.max(b.value))
}

// The smaller of two alignments.
pub fn min(a: u64, b: u64) -> Result<u64, Refusal>
    ensures answer { number_says result ≡ min_for 64 a b }
    ensures meaning { Meets (aligns_causes 64 a b) (Smaller a b) (number_says result) }
{
    let a = Align::new(a)?;
    let b = Align::new(b)?;
    Ok(a.value.min(b.value))
}

// The product, where 64 bits hold it: what it wraps to, divided by one factor, is then the other. The compiler makes one
// multiplication and a test of its overflow of this: no division. Not by the library's `checked_mul`, with which `size_for_elems`
// takes 67 instructions, and so 65.
pub fn checked_mul(a: u64, b: u64) -> Option<u64>
    ensures { product_says result ≡ checked 64 (a * b) }
{
    let product = wrapping_mul(a, b);
    if b == 0 {
        return Some(product);
    }
    if product / b == a {
        Some(product)
    } else {
        None
    }
}

// The product modulo 2^64.
pub fn wrapping_mul(a: u64, b: u64) -> u64
    ensures { result ≡ a * b % 2 ^ 64 }
{
    a.wrapping_mul(b)
}
