// Alignments that are known to be powers of two, so that what is done with one tests it no more.

ghost use Rattle.std.specs.Prelude.{◌≡◌, ◌%◌};
ghost use Rattle.util_defs.specs.Power.{PowerOfTwo};
ghost use Rattle.util_defs.specs.Round.{down, padding};
ghost use Rattle.util_defs.specs.Refusal.{unless, Meets};
ghost use Rattle.util_defs.specs.Helpers.{align_causes};
ghost use Rattle.util_defs.specs.Unique.{power_prop};
ghost use Rattle.util.specs.View.{says};

use crate::is_power_of_two;
use crate::refusal::Refusal;

// An alignment: a power of two.
#[derive(Clone, Copy)]
pub struct Align {
    pub value: u64,
    pub ghost power: { PowerOfTwo value } by { power_prop },
}

impl Align {
    // The alignment that a number is.
    #[inline(always)]
    pub fn new(value: u64) -> Result<Align, Refusal>
        ensures answer { says (λ a. a.value) result ≡ unless (align_causes 64 value) value }
        ensures meaning { Meets (align_causes 64 value) (λ n. n ≡ value) (says (λ a. a.value) result) }
    {
        if is_power_of_two(value) {
            Ok(Align { value })
        } else {
            Err(Refusal::AlignNotPowerOfTwo)
        }
    }

    // The remainder of n: its bits below the alignment's one bit.
    #[inline(always)]
    pub fn remainder(self, n: u64) -> u64
        ensures { result ≡ n % self.value }
    {
        n & (self.value - 1)
    }

    // The greatest multiple that is at most n.
    #[inline(always)]
    pub fn round_down(self, n: u64) -> u64
        ensures { result ≡ down n self.value }
    {
        n & !(self.value - 1)
    }

    // The bytes needed to pad len to the next multiple.
    #[inline(always)]
    pub fn padding_needed(self, len: u64) -> u64
        ensures { result ≡ padding len self.value }
    {
        let mask = self.value - 1;
        !len.wrapping_sub(1) & mask
    }
}
