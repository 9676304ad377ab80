// What goes on from count to count: the layout that was tested, and the sums so far. Their ghost fields may name no definition
// that names them, so that they stand in a file of their own.

ghost use Rattle.std.specs.Prelude.{◌≡◌, ◌^◌, ◌≤◌, ◌<◌};
ghost use Rattle.std.specs.Coded.{le_prop};
ghost use native.Mathlib.Nat.{ℕ_set};
ghost use Rattle.util_defs.specs.Width.{M};
ghost use Rattle.trailing_defs.specs.Calls.{GreatestIn};
ghost use Rattle.trailing.specs.View.{trailing_of};
ghost use Rattle.sums.specs.Bits.{bits_to, greatest_prop};

use trailing::Decoded;

// A layout whose word was tested, with what each count needs of it and is worked out once: the parts of the word, the greatest
// number of the width, which holds the word, and the greatest number of trailing bytes that has a size at that width.
#[derive(Clone, Copy)]
pub struct Tested {
    pub decoded: Decoded,
    pub max: u64,
    pub most: u64,
    pub ghost is_width: { max ≡ M (bits_to max) } by { ℕ_set max (M (bits_to max)) },
    pub ghost holds: { (trailing_of decoded.layout).word < 2 ^ bits_to max } by { le_prop },
    pub ghost room: { GreatestIn (bits_to max) (trailing_of decoded.layout) (M (bits_to max)) most } by { greatest_prop },
}

// The sums over the counts so far, the greatest padding and its first index. A padding is no more than its size, so that the sum
// of the paddings passes nothing that the sum of the sizes does not.
#[derive(Clone, Copy)]
pub struct Sums {
    pub sizes: u64,
    pub paddings: u64,
    pub greatest: u64,
    pub index: u64,
    pub ghost within: { paddings ≤ sizes } by { le_prop },
}
