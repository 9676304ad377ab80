// How much of the sizes of a trailing layout at a list of counts is padding (document 02, request 12), at 64 bits and at 32. The
// counts are summed up in one pass (the crate sums); the two fractions are brought to lowest terms at the end.
#![tactic(auto)]

ghost use Rattle.std.specs.Prelude.{◌≡◌, cond, ◌<◌, eqb};
ghost use Rattle.util_defs.specs.Placed.{reached, go_on};
ghost use Rattle.trailing.specs.View.{trailing_of};
ghost use Rattle.gcd_defs.specs.Fraction.{reduced};
ghost use Rattle.share_defs.specs.Totals.{Totals};
ghost use Rattle.share_defs.specs.Share.{nothing, share_of, share_for};
ghost use Rattle.share_defs.specs.Meaning.{ShareMeans};
ghost use Rattle.sums.specs.View.{sums_of, sums_says};
ghost use Rattle.share.specs.View.{fraction_of, share_is, share_says, low_share};

use sums::Sums;
use trailing::TrailingSliceLayout;
use util::RefusedAt;

// One number over another.
#[derive(Clone, Copy)]
pub struct Fraction<N, D> {
    pub numerator: N,
    pub denominator: D,
}

// Total padding over total size and the mean size, in lowest terms; the greatest padding and its first index.
#[derive(Clone, Copy)]
pub struct Share<N> {
    pub padding: Fraction<N, N>,
    pub mean: Fraction<N, u64>,
    pub greatest: N,
    pub index: u64,
}

// A quotient in lowest terms.
fn lowest_terms(numerator: u64, denominator: u64) -> Fraction<u64, u64>
    requires { 0 < denominator }
    ensures { fraction_of result ≡ reduced numerator denominator }
{
    let divisor = gcd::greatest_common_divisor(numerator, denominator);
    Fraction {
        numerator: numerator / divisor,
        denominator: denominator / divisor,
    }
}

// Total padding over total size: 0 over 1 for total 0.
fn padding_share(paddings: u64, sizes: u64) -> Fraction<u64, u64>
    ensures { fraction_of result ≡ cond (eqb sizes 0) nothing (reduced paddings sizes) }
{
    if sizes == 0 {
        Fraction {
            numerator: 0,
            denominator: 1,
        }
    } else {
        lowest_terms(paddings, sizes)
    }
}

// What the sums over so many counts give.
fn share_of(x: Sums, count: u64) -> Share<u64>
    requires { 0 < count }
    ensures { share_is result ≡ share_of count (sums_of x) }
{
    Share {
        padding: padding_share(x.paddings, x.sizes),
        mean: lowest_terms(x.sizes, count),
        greatest: x.greatest,
        index: x.index,
    }
}

// The same, or the first refusal.
fn share_of_sums(
    answer: Result<Sums, RefusedAt<u64>>,
    count: u64,
) -> Result<Share<u64>, RefusedAt<u64>>
    requires { (x : Totals) → sums_says answer ≡ reached x → 0 < count }
    ensures { share_says result ≡ go_on (sums_says answer) (λ x. reached (share_of count x)) }
{
    let x = answer?;
    Ok(share_of(x, count))
}

// How much of the sizes at these counts is padding: total padding over total size, the mean size, and the greatest padding.
pub fn padding_of_counts(
    layout: TrailingSliceLayout<u64>,
    counts: &[u64],
) -> Result<Share<u64>, RefusedAt<u64>>
    ensures answer { share_says result ≡ share_for 64 (trailing_of layout) counts.now }
    ensures meaning { ShareMeans 64 (trailing_of layout) counts.now (share_says result) }
{
    share_of_sums(sums::sums_of_counts(layout, counts), counts.len() as u64)
}

// A share narrowed to 32 bits, which hold it. No TryFrom, as `numbers32::low_word`.
fn low_share(share: Share<u64>) -> Share<u32>
    ensures { share_is result ≡ low_share 32 (share_is share) }
{
    let padding = share.padding;
    let mean = share.mean;
    Share {
        padding: Fraction {
            numerator: numbers32::low_word(padding.numerator),
            denominator: numbers32::low_word(padding.denominator),
        },
        mean: Fraction {
            numerator: numbers32::low_word(mean.numerator),
            denominator: mean.denominator,
        },
        greatest: numbers32::low_word(share.greatest),
        index: share.index,
    }
}

// The same of an answer. No TryFrom, as `numbers32::low_word`.
fn low_answer(answer: Result<Share<u64>, RefusedAt<u64>>) -> Result<Share<u32>, RefusedAt<u64>>
    ensures { share_says result ≡ go_on (share_says answer) (λ x. reached (low_share 32 x)) }
{
    answer.map(low_share)
}

// The same at 32 bits. A function of its own: `sums_of_counts32` widens the layout, and the share is narrowed at the end.
pub fn padding_of_counts32(
    layout: TrailingSliceLayout<u32>,
    counts: &[u32],
) -> Result<Share<u32>, RefusedAt<u64>>
    ensures answer { share_says result ≡ share_for 32 (trailing_of layout) counts.now }
    ensures meaning { ShareMeans 32 (trailing_of layout) counts.now (share_says result) }
{
    low_answer(share_of_sums(sums::sums_of_counts32(layout, counts), counts.len() as u64))
}
