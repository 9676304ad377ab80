// The sums of the sizes and the paddings of a trailing layout at a list of counts (document 02, request 12), at 64 bits and at
// 32: one pass over the counts, which divides nowhere. Both widths go by the same functions: the greatest number stands beside
// the layout that was tested, and a count is a number of either width.
#![tactic(auto)]

ghost use Rattle.std.specs.Prelude.{◌≡◌, map, [], ◌∷◌, ℕ, ◌+◌, ◌*◌, ◌^◌, ◌≤◌, ◌<◌};
ghost use Rattle.util_defs.specs.Width.{M};
ghost use Rattle.util_defs.specs.Refusal.{unless};
ghost use Rattle.trailing_defs.specs.Size.{size_at};
ghost use Rattle.trailing.specs.View.{trailing_of};
ghost use Rattle.share_defs.specs.Totals.{sum_passes, no_totals, with_count, add_count, totals_from};
ghost use Rattle.share_defs.specs.Share.{sums_for};
ghost use Rattle.sums.specs.Bits.{bits_to};
ghost use Rattle.sums.specs.View.{sums_of, bits_of, TestMeans, add_says, sums_says};

use trailing::{Decoded, TrailingSliceLayout};
use util::{Refusal, RefusedAt};

mod tested;

pub use tested::Sums;
use tested::Tested;

// A count, of either width. `Steps` has the same and more; it stands above layouts, of which nothing is asked here.
trait Count: Copy {
    ghost number: { Self → ℕ };

    fn wide(self) -> u64
        ensures { result ≡ number self };
}

impl Count for u64 {
    ghost number = { λ n. n };

    fn wide(self) -> u64 {
        self
    }
}

impl Count for u32 {
    ghost number = { λ n. n };

    fn wide(self) -> u64 {
        self as u64
    }
}

// The sums with the size and the padding of the count at i. The layout, the sums so far and the place go apart, here and below:
// from count to count the sums change, and the layout does not.
fn add_sized(l: Tested, x: Sums, i: u64, size: u64, padding: u64) -> Result<Sums, Refusal>
    requires { (padding ≤ size) × (size ≤ l.max) }
    ensures { add_says result ≡ unless (sum_passes (bits_of l) (x.sizes + size) (x.paddings + padding) ∷ [])
        (with_count i size padding (sums_of x)) }
{
    if x.sizes > l.max - size {
        return Err(Refusal::SumPassesMax);
    }
    let sizes = x.sizes + size;
    let paddings = x.paddings + padding;
    if padding > x.greatest {
        return Ok(Sums {
            sizes,
            paddings,
            greatest: padding,
            index: i,
        });
    }
    Ok(Sums {
        sizes,
        paddings,
        greatest: x.greatest,
        index: x.index,
    })
}

// The size with so many trailing bytes.
fn size_of(l: Tested, bytes: u64) -> u64
    requires { bytes ≤ l.most }
    ensures { (result ≤ l.max) × ((n : ℕ) → bytes ≡ n * (trailing_of l.decoded.layout).elem
        → result ≡ size_at (bits_of l) (trailing_of l.decoded.layout) n) }
{
    let Decoded { layout, parts } = l.decoded;
    let align = l.decoded.align();
    layout.size_base + align.round_down(parts.phase + bytes + (align.value - 1))
}

// The sums with a count of so many trailing bytes, which have a size. The end of the elements is compared in two steps: it may
// pass the greatest number.
fn add_bytes(l: Tested, x: Sums, i: u64, bytes: u64) -> Result<Sums, Refusal>
    requires { bytes ≤ l.most }
    ensures { (n : ℕ) → bytes ≡ n * (trailing_of l.decoded.layout).elem
        → add_says result ≡ add_count (bits_of l) (trailing_of l.decoded.layout) i n (sums_of x) }
{
    let layout = l.decoded.layout;
    let size = size_of(l, bytes);
    if size < layout.offset {
        return Err(Refusal::EndAboveSize);
    }
    let past_offset = size - layout.offset;
    if past_offset < bytes {
        return Err(Refusal::EndAboveSize);
    }
    add_sized(l, x, i, size, past_offset - bytes)
}

// The sums with the count at i.
fn add_count(l: Tested, x: Sums, i: u64, count: u64) -> Result<Sums, Refusal>
    ensures { add_says result ≡ add_count (bits_of l) (trailing_of l.decoded.layout) i count (sums_of x) }
{
    let layout = l.decoded.layout;
    let Some(bytes) = util::checked_mul(count, layout.elem_size) else {
        return Err(Refusal::NoSize);
    };
    if bytes > l.most {
        return Err(Refusal::NoSize);
    }
    add_bytes(l, x, i, bytes)
}

// The sums over no counts.
fn no_sums() -> Sums
    ensures { sums_of result ≡ no_totals }
{
    Sums {
        sizes: 0,
        paddings: 0,
        greatest: 0,
        index: 0,
    }
}

// The sums over all counts, or the first refusal. By a match: with `map_err` and `?` a count took 32 instructions in place of 24.
fn add_counts<N: Count>(l: Tested, counts: &[N]) -> Result<Sums, RefusedAt<u64>>
    ensures { sums_says result ≡ totals_from (bits_of l) (trailing_of l.decoded.layout) 0 (map N.number counts.now) no_totals }
{
    let mut x = no_sums();
    for (i, count) in counts.iter().enumerate() {
        match add_count(l, x, i as u64, count.wide()) {
            Ok(next) => {
                x = next;
            }
            Err(refusal) => {
                return Err(RefusedAt {
                    refusal,
                    place: i as u64,
                });
            }
        }
    }
    Ok(x)
}

// A layout by the parts of its word, where it has a size at 0: else the first count is refused.
fn test_size(decoded: Decoded, max: u64, count: u64) -> Result<Tested, Refusal>
    requires { ((max ≡ M (bits_to max)) × ((trailing_of decoded.layout).word < 2 ^ bits_to max)) × (0 < count) }
    ensures { TestMeans (trailing_of decoded.layout) max count result }
{
    let most = decoded
        .layout
        .max_trailing_bytes(max)
        .map_err(|_| Refusal::NoSizeAtZero)?;
    Ok(Tested { decoded, max, most })
}

// What refuses before any count: the layout, so many counts, and no size at 0.
fn test(layout: TrailingSliceLayout<u64>, max: u64, count: u64) -> Result<Tested, Refusal>
    requires { (max ≡ M (bits_to max)) × ((trailing_of layout).word < 2 ^ bits_to max) }
    ensures { TestMeans (trailing_of layout) max count result }
{
    let decoded = layout.decoded()?;
    if count == 0 {
        return Err(Refusal::NoCounts);
    }
    test_size(decoded, max, count)
}

// The sums over the sizes at these counts.
pub fn sums_of_counts(
    layout: TrailingSliceLayout<u64>,
    counts: &[u64],
) -> Result<Sums, RefusedAt<u64>>
    ensures { sums_says result ≡ sums_for 64 (trailing_of layout) counts.now }
{
    let l = test(layout, u64::MAX, counts.len() as u64).map_err(|refusal| RefusedAt {
        refusal,
        place: 0u64,
    })?;
    add_counts(l, counts)
}

// The same at 32 bits. A function of its own: it widens the layout, which at 64 bits there is no need of.
pub fn sums_of_counts32(
    layout: TrailingSliceLayout<u32>,
    counts: &[u32],
) -> Result<Sums, RefusedAt<u64>>
    ensures { sums_says result ≡ sums_for 32 (trailing_of layout) counts.now }
{
    let wide = trailing32::wide_tail(layout);
    let l = test(wide, numbers32::MAX, counts.len() as u64).map_err(|refusal| RefusedAt {
        refusal,
        place: 0u64,
    })?;
    add_counts(l, counts)
}
