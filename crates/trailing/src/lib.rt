// Trailing layouts, after zerocopy's TrailingSliceLayout: a fixed part and then a run of elements.
// The size at a count is size_base + up(phase + count * elem_size, align); the offset does not enter it.
#![tactic(auto)]

ghost use Rattle.std.specs.Prelude.{◌≡◌, ◌*◌, ◌/◌, ◌%◌, ◌<◌};
ghost use Rattle.std.specs.Coded.{le_prop};
ghost use Rattle.util_defs.specs.Round.{up};
ghost use Rattle.util_defs.specs.Refusal.{Meets};
ghost use Rattle.util.specs.View.{says, number_says};
ghost use Rattle.rounding.specs.Word.{IsWord, word_causes};
ghost use Rattle.rounding.specs.Unique.{word_prop};
ghost use Rattle.trailing_defs.specs.Calls.{size_offset_for, GreatestIn, SizeOffset, max_trailing_causes, max_trailing_for};
ghost use Rattle.trailing_defs.specs.Calls.{padding_for_elems, PaddingAt};
ghost use Rattle.trailing_defs.specs.Sized.{sized, none_above, size_given, SizeMeans};
ghost use Rattle.trailing_defs.specs.Size.{size_at, HasSize};
ghost use Rattle.trailing.specs.declared.SizeRefusal.TheVariants.{Refused};
ghost use Rattle.trailing.specs.View.{trailing_of, no_size_says, size_says};

use rounding::{Components, RoundingAlignAndPhase};
use util::{Align, Refusal};

#[derive(Clone, Copy)]
pub struct TrailingSliceLayout<N> {
    // The offset of the first byte of the elements. It need not be the least size.
    pub offset: N,
    // The size of an element.
    pub elem_size: N,
    // What the size has besides the rounded part.
    pub size_base: N,
    // The alignment and phase of the rounding: the phase is the fixed part of what is rounded.
    pub size_rounding_align_and_phase: RoundingAlignAndPhase<N>,
}

// A trailing layout that is one: its rounding word is not 0.
#[derive(Clone, Copy)]
pub struct ValidTail {
    pub layout: TrailingSliceLayout<u64>,
    pub ghost has_word: { 0 < layout.size_rounding_align_and_phase.0 } by { le_prop },
}

// A trailing layout beside the parts of its rounding word.
#[derive(Clone, Copy)]
pub struct Decoded {
    pub layout: TrailingSliceLayout<u64>,
    pub parts: Components<u64>,
    pub ghost is_word: { IsWord layout.size_rounding_align_and_phase.0 parts.align parts.phase } by { word_prop },
}

// Why there is no size: none at this count, and the greatest count that has one; or another refusal.
#[derive(Clone, Copy)]
pub enum SizeRefusal<N> {
    NoSize { greatest: N },
    Refused(Refusal),
}

impl<N> From<Refusal> for SizeRefusal<N> {
    ghost from_gives = { λ r s. s ≡ Refused r };

    fn from(refusal: Refusal) -> SizeRefusal<N> {
        SizeRefusal::Refused(refusal)
    }
}

// Past the test of the word. But for `align`, `rounded_phase`, `trailing_remainder` and `size_at` each is a step of the layout's
// method of that name.
impl Decoded {
    // The alignment, which the word keeps as a power of two.
    #[inline(always)]
    pub fn align(self) -> Align
        ensures { result.value ≡ self.parts.align }
    {
        Align {
            value: self.parts.align,
        }
    }

    // What an empty run adds: a block of the alignment, but for phase 0 nothing.
    pub fn rounded_phase(self) -> u64
        ensures { result ≡ up self.parts.phase self.parts.align }
    {
        let Components { align, phase } = self.parts;
        if phase == 0 { 0 } else { align }
    }

    fn size_offset(self) -> Result<u64, Refusal>
        ensures { number_says result ≡ size_offset_for 64 (trailing_of self.layout) }
    {
        let aligned_base = self.align().round_down(self.layout.size_base);
        Ok(aligned_base + self.parts.phase)
    }

    fn max_trailing_bytes(self, available: u64) -> Result<u64, Refusal>
        ensures { number_says result ≡ max_trailing_for 64 (trailing_of self.layout) available }
    {
        let size_base = self.layout.size_base;
        let rounded_phase = self.rounded_phase();
        if u64::MAX - rounded_phase < size_base {
            return Err(Refusal::NoRoom);
        }
        let minimum_size = size_base + rounded_phase;
        if available < minimum_size {
            return Err(Refusal::NoRoom);
        }
        let extra_bytes = available - minimum_size;
        let aligned_bytes = self.align().round_down(extra_bytes);
        // An empty run leaves rounded_phase - phase bytes that elements can use.
        Ok(aligned_bytes + (rounded_phase - self.parts.phase))
    }

    // The bytes of the elements, modulo the alignment. The product wraps, which keeps its remainder: the alignment divides 2^64.
    fn trailing_remainder(self, elems: u64) -> u64
        ensures { result ≡ elems * self.layout.elem_size % self.parts.align }
    {
        let align = self.align();
        let elem_remainder = align.remainder(self.layout.elem_size);
        align.remainder(util::wrapping_mul(elems, elem_remainder))
    }

    fn padding_for_elems(self, elems: u64) -> Result<u64, Refusal>
        ensures { number_says result ≡ padding_for_elems 64 (trailing_of self.layout) elems }
    {
        let layout = self.layout;
        let phase = self.parts.phase;
        let rounding_input = phase + self.trailing_remainder(elems);
        let rounding_padding = self.align().padding_needed(rounding_input);
        // The bytes of the elements cancel out: what is left is base + phase - offset + padding.
        let fixed = layout.size_base.wrapping_add(phase);
        let past = fixed.wrapping_sub(layout.offset);
        Ok(past.wrapping_add(rounding_padding))
    }

    // The size where the trailing bytes are at most what fits: the end of the elements and the padding after it.
    fn size_at(self, elems: u64, bytes: u64) -> Result<u64, SizeRefusal<u64>>
        requires { (bytes ≡ elems * self.layout.elem_size) × HasSize 64 (trailing_of self.layout) elems }
        ensures { size_says result ≡ sized (size_at 64 (trailing_of self.layout) elems) }
    {
        let padding = self.padding_for_elems(elems)?;
        let trailing_end = self.layout.offset.wrapping_add(bytes);
        Ok(trailing_end.wrapping_add(padding))
    }

    fn size_for_elems(self, elems: u64) -> Result<u64, SizeRefusal<u64>>
        ensures { size_says result ≡ size_given 64 (trailing_of self.layout) elems }
    {
        let layout = self.layout;
        let Ok(max_trailing_bytes) = self.max_trailing_bytes(u64::MAX) else {
            return Err(SizeRefusal::Refused(Refusal::NoSizeAtZero));
        };
        let Some(trailing_size) = util::checked_mul(elems, layout.elem_size) else {
            return Err(layout.no_size(max_trailing_bytes));
        };
        if trailing_size > max_trailing_bytes {
            return Err(layout.no_size(max_trailing_bytes));
        }
        self.size_at(elems, trailing_size)
    }
}

impl TrailingSliceLayout<u64> {
    // The layout beside the parts of its word, where that is not 0.
    #[inline(always)]
    pub fn decoded(self) -> Result<Decoded, Refusal>
        ensures { Meets (word_causes (trailing_of self).word) (λ l. l ≡ self) (says (λ d. d.layout) result) }
    {
        let word = self.size_rounding_align_and_phase;
        let parts = word.components()?;
        Ok(Decoded {
            layout: self,
            parts,
        })
    }

    // The base rounded down to a multiple of the alignment, plus the phase.
    pub fn size_offset(self) -> Result<u64, Refusal>
        ensures answer { number_says result ≡ size_offset_for 64 (trailing_of self) }
        ensures meaning { Meets (word_causes (trailing_of self).word) (SizeOffset (trailing_of self)) (number_says result) }
    {
        self.decoded()?.size_offset()
    }

    // The greatest number of trailing bytes whose size is at most available_bytes.
    pub fn max_trailing_bytes(self, available_bytes: u64) -> Result<u64, Refusal>
        ensures answer { number_says result ≡ max_trailing_for 64 (trailing_of self) available_bytes }
        ensures meaning { Meets (max_trailing_causes 64 (trailing_of self) available_bytes)
            (GreatestIn 64 (trailing_of self) available_bytes) (number_says result) }
    {
        self.decoded()?.max_trailing_bytes(available_bytes)
    }

    // The size at elems less the end of the elements, modulo 2^64.
    pub fn padding_for_elems(self, elems: u64) -> Result<u64, Refusal>
        ensures answer { number_says result ≡ padding_for_elems 64 (trailing_of self) elems }
        ensures meaning { Meets (word_causes (trailing_of self).word) (PaddingAt 64 (trailing_of self) elems)
            (number_says result) }
    {
        self.decoded()?.padding_for_elems(elems)
    }

    // The greatest count that has a size: as many elements as the greatest number of trailing bytes holds. The divide stands here
    // alone, so that no path to a size has one.
    fn no_size(self, max_trailing_bytes: u64) -> SizeRefusal<u64>
        requires { 0 < (trailing_of self).elem }
        ensures { no_size_says result ≡ none_above (max_trailing_bytes / (trailing_of self).elem) }
    {
        SizeRefusal::NoSize {
            greatest: max_trailing_bytes / self.elem_size,
        }
    }

    // The size at elems.
    pub fn size_for_elems(self, elems: u64) -> Result<u64, SizeRefusal<u64>>
        ensures answer { size_says result ≡ size_given 64 (trailing_of self) elems }
        ensures meaning { SizeMeans 64 (trailing_of self) elems (size_says result) }
    {
        self.decoded()?.size_for_elems(elems)
    }
}
