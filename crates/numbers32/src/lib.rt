// Rounding helpers and rounding words at 32 bits, by those at 64: the numbers are widened, and the lower half of what comes
// back is the answer, since 32 bits hold it. Each call at 32 bits is a function of its own, and no instance of a generic
// one: it widens what it is given, calls that of 64 bits, and of numbers that come back narrows or refuses those, and at 64
// bits there would be none of these steps.
#![tactic(auto)]

ghost use Rattle.std.specs.Prelude.{◌≡◌};
ghost use Rattle.util_defs.specs.Power.{PowerOfTwo, power_of_two};
ghost use Rattle.util_defs.specs.Round.{GreatestMultiple, LeastPadding};
ghost use Rattle.util_defs.specs.Refusal.{Tells, Meets};
ghost use Rattle.util_defs.specs.Helpers.{align_causes, aligns_causes, padding_for, round_down_for, max_for};
ghost use Rattle.util_defs.specs.Helpers.{min_for, Larger, Smaller};
ghost use Rattle.util.specs.View.{number_says};
ghost use Rattle.rounding.specs.Word.{IsWord, AlignOf, PartsOf, new_causes, word_causes, new_for, components_for, align_for};
ghost use Rattle.rounding.specs.View.{new_says, components_says, word_of};
ghost use Rattle.widths_defs.specs.Low.{mapped, low, low_parts};

use rounding::{Components, RoundingAlignAndPhase};
use util::Refusal;

// The greatest number of 32 bits.
pub const MAX: u64 = 0xffff_ffff;

// The lower 32 bits. Not by TryFrom, which would have a refusal that never comes.
pub fn low_word(x: u64) -> u32
    ensures { result ≡ low 32 x }
{
    (x % 0x1_0000_0000) as u32
}

// A number of 64 bits narrowed. No From: neither the trait nor a type of the impl would be of this crate.
pub fn low_number(answer: Result<u64, Refusal>) -> Result<u32, Refusal>
    ensures { number_says result ≡ mapped (low 32) (number_says answer) }
{
    answer.map(low_word)
}

// A word that was made, narrowed. No From: neither the trait nor a type of the impl would be of this crate.
fn low_new(
    answer: Result<RoundingAlignAndPhase<u64>, Refusal>,
) -> Result<RoundingAlignAndPhase<u32>, Refusal>
    ensures { new_says result ≡ mapped (low 32) (new_says answer) }
{
    answer.map(|word| RoundingAlignAndPhase(low_word(word.0)))
}

// The parts of a word narrowed. No From: neither the trait nor a type of the impl would be of this crate.
fn low_components(answer: Result<Components<u64>, Refusal>) -> Result<Components<u32>, Refusal>
    ensures { components_says result ≡ mapped (low_parts 32) (components_says answer) }
{
    answer.map(|parts| Components {
        align: low_word(parts.align),
        phase: low_word(parts.phase),
    })
}

// Whether a is a power of two.
pub fn is_power_of_two(a: u32) -> bool
    ensures answer { result ≡ power_of_two 32 a }
    ensures meaning { Tells (PowerOfTwo a) result }
{
    util::is_power_of_two(a as u64)
}

// The bytes needed to pad len to the next multiple of align.
pub fn padding_needed_for(len: u32, align: u32) -> Result<u32, Refusal>
    ensures answer { number_says result ≡ padding_for 32 len align }
    ensures meaning { Meets (align_causes 32 align) (LeastPadding 32 len align) (number_says result) }
{
    low_number(util::padding_needed_for(len as u64, align as u64))
}

// The greatest multiple of align that is at most n.
pub fn round_down_to_next_multiple_of_alignment(n: u32, align: u32) -> Result<u32, Refusal>
    ensures answer { number_says result ≡ round_down_for 32 n align }
    ensures meaning { Meets (align_causes 32 align) (GreatestMultiple n align) (number_says result) }
{
    low_number(util::round_down_to_next_multiple_of_alignment(n as u64, align as u64))
}

// The larger of two alignments.
pub fn max(a: u32, b: u32) -> Result<u32, Refusal>
    ensures answer { number_says result ≡ max_for 32 a b }
    ensures meaning { Meets (aligns_causes 32 a b) (Larger a b) (number_says result) }
{
    low_number(util::max(a as u64, b as u64))
}

// The smaller of two alignments.
pub fn min(a: u32, b: u32) -> Result<u32, Refusal>
    ensures answer { number_says result ≡ min_for 32 a b }
    ensures meaning { Meets (aligns_causes 32 a b) (Smaller a b) (number_says result) }
{
    low_number(util::min(a as u64, b as u64))
}

// Encodes align and phase.
pub fn new(align: u32, phase: u32) -> Result<RoundingAlignAndPhase<u32>, Refusal>
    ensures answer { new_says result ≡ new_for 32 align phase }
    ensures meaning { Meets (new_causes 32 align phase) (λ n. IsWord n align phase) (new_says result) }
{
    low_new(RoundingAlignAndPhase::new(align as u64, phase as u64))
}

// Decodes the alignment and the phase.
pub fn components(word: RoundingAlignAndPhase<u32>) -> Result<Components<u32>, Refusal>
    ensures answer { components_says result ≡ components_for 32 (word_of word) }
    ensures meaning { Meets (word_causes (word_of word)) (PartsOf (word_of word)) (components_says result) }
{
    let wide = RoundingAlignAndPhase(word.0 as u64);
    low_components(wide.components())
}

// Decodes the alignment.
pub fn align(word: RoundingAlignAndPhase<u32>) -> Result<u32, Refusal>
    ensures answer { number_says result ≡ align_for 32 (word_of word) }
    ensures meaning { Meets (word_causes (word_of word)) (AlignOf (word_of word)) (number_says result) }
{
    let wide = RoundingAlignAndPhase(word.0 as u64);
    low_number(wide.align())
}
