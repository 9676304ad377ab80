// The rounding word, after zerocopy's RoundingAlignAndPhase: an alignment and a phase below it, packed as their sum.
#![tactic(auto)]

ghost use Rattle.std.specs.Prelude.{◌≡◌};
ghost use Rattle.util_defs.specs.Refusal.{Meets};
ghost use Rattle.util.specs.View.{number_says};
ghost use Rattle.rounding.specs.Word.{IsWord, AlignOf, PartsOf, new_causes, word_causes, new_for, components_for, align_for};
ghost use Rattle.rounding.specs.View.{word_of, new_says, components_says};

use util::Refusal;

// The word, of a width N, kept apart from every other number. Its highest one bit is the alignment, the rest the phase.
#[derive(Clone, Copy)]
pub struct RoundingAlignAndPhase<N>(pub N);

// The parts of a word.
#[derive(Clone, Copy)]
pub struct Components<N> {
    pub align: N,
    pub phase: N,
}

impl RoundingAlignAndPhase<u64> {
    // Encodes align and phase. Their one bits are disjoint, so that their sum is the Rust's |.
    pub fn new(align: u64, phase: u64) -> Result<RoundingAlignAndPhase<u64>, Refusal>
        ensures answer { new_says result ≡ new_for 64 align phase }
        ensures meaning { Meets (new_causes 64 align phase) (λ n. IsWord n align phase) (new_says result) }
    {
        if util::is_power_of_two(align) {
            if phase < align {
                Ok(RoundingAlignAndPhase(align + phase))
            } else {
                Err(Refusal::PhaseNotBelowAlign)
            }
        } else {
            Err(Refusal::AlignNotPowerOfTwo)
        }
    }

    // Decodes the alignment and the phase.
    pub fn components(self) -> Result<Components<u64>, Refusal>
        ensures answer { components_says result ≡ components_for 64 (word_of self) }
        ensures meaning { Meets (word_causes (word_of self)) (PartsOf (word_of self)) (components_says result) }
    {
        let word = self.0;
        if word == 0 {
            return Err(Refusal::RoundingWordZero);
        }
        let shift = 63 - word.leading_zeros();
        let align = 1u64 << shift;
        Ok(Components {
            align,
            // The highest bit is taken out.
            phase: word ^ align,
        })
    }

    // Decodes the alignment.
    pub fn align(self) -> Result<u64, Refusal>
        ensures answer { number_says result ≡ align_for 64 (word_of self) }
        ensures meaning { Meets (word_causes (word_of self)) (AlignOf (word_of self)) (number_says result) }
    {
        Ok(self.components()?.align)
    }
}
