// Whole layouts, after zerocopy's DstLayout.
#![tactic(auto)]

ghost use Rattle.std.specs.Prelude.{◌≡◌, [], ◌∷◌};
ghost use Rattle.util_defs.specs.Round.{up};
ghost use Rattle.util_defs.specs.Refusal.{None, Meets, unless};
ghost use Rattle.util.specs.View.{number_says};
ghost use Rattle.layout_defs.specs.Layout.{fixed, layout_causes, check_for, FitsWidth};
ghost use Rattle.layout_defs.specs.Unique.{accepted_prop};
ghost use Rattle.layout_defs.specs.Extend.{rounding_passes, round_up_causes, round_up_for, LeastPlace};
ghost use Rattle.layout.specs.View.{layout_of, sized_of, check_says};

use trailing::TrailingSliceLayout;
use util::{Align, Refusal};

// How large a layout is: a size, or a size at each count.
#[derive(Clone, Copy)]
pub enum SizeInfo<N> {
    Sized { size: N },
    SliceDst(TrailingSliceLayout<N>),
}

#[derive(Clone, Copy)]
pub struct DstLayout<N> {
    pub align: N,
    pub size_info: SizeInfo<N>,
    // No padding is known between the members.
    pub statically_shallow_unpadded: bool,
    // An alignment modifier was asked for, of the type or of a member at any depth. The Rust has no such mark.
    pub align_modifier: bool,
}

// A layout that `check` accepts.
#[derive(Clone, Copy)]
pub struct ValidLayout {
    pub layout: DstLayout<u64>,
    pub ghost accepted: { None (layout_causes 64 (layout_of layout)) } by { accepted_prop 64 (layout_of layout) },
}

impl ValidLayout {
    // The alignment, which `check` found to be a power of two.
    #[inline(always)]
    pub fn align(self) -> Align
        ensures { result.value ≡ self.layout.align }
    {
        Align {
            value: self.layout.align,
        }
    }
}

// A layout with a size: no member of it is trailing.
#[derive(Clone, Copy)]
pub struct SizedLayout {
    pub align: u64,
    pub size: u64,
    pub statically_shallow_unpadded: bool,
    pub align_modifier: bool,
}

// A layout with a size, as any.
impl From<SizedLayout> for DstLayout<u64> {
    ghost from_gives = { λ own l. layout_of l ≡ sized_of own };

    #[inline(always)]
    fn from(own: SizedLayout) -> DstLayout<u64> {
        DstLayout {
            align: own.align,
            size_info: SizeInfo::Sized { size: own.size },
            statically_shallow_unpadded: own.statically_shallow_unpadded,
            align_modifier: own.align_modifier,
        }
    }
}

// len rounded up to a multiple of what is known to be a power of two. Of the lesser of two alignments the compiler does not see
// that it is one, and would test it once more.
pub fn round_up_to(len: u64, align: Align) -> Result<u64, Refusal>
    ensures { number_says result ≡ unless (rounding_passes 64 (up len align.value) ∷ []) (up len align.value) }
{
    let padding = align.padding_needed(len);
    if u64::MAX - padding < len {
        Err(Refusal::RoundingPassesMax)
    } else {
        Ok(len + padding)
    }
}

// len rounded up to a multiple of align, where that does not pass the greatest number.
pub fn round_up(len: u64, align: u64) -> Result<u64, Refusal>
    ensures answer { number_says result ≡ round_up_for 64 len align }
    ensures meaning { Meets (round_up_causes 64 len align) (LeastPlace len align) (number_says result) }
{
    round_up_to(len, Align::new(align)?)
}

impl DstLayout<u64> {
    // The layout with this size, in place of what it has.
    #[inline(always)]
    pub fn with_size(self, size: u64) -> SizedLayout
        ensures { sized_of result ≡ record {
          align = self.align;
          info = fixed size;
          mark = self.statically_shallow_unpadded;
          modifier = self.align_modifier;
        } }
    {
        SizedLayout {
            align: self.align,
            size,
            statically_shallow_unpadded: self.statically_shallow_unpadded,
            align_modifier: self.align_modifier,
        }
    }

    // Whether the layout is one: its alignment is a power of two and its rounding word, if it has one, is not 0.
    #[inline(always)]
    pub fn check(self) -> Result<(), Refusal>
        ensures answer { check_says result ≡ check_for 64 (layout_of self) }
        ensures meaning { Meets (layout_causes 64 (layout_of self)) (λ _. FitsWidth 64 (layout_of self)) (check_says result) }
    {
        if util::is_power_of_two(self.align) {
            let size_info = self.size_info;
            match size_info {
                SizeInfo::Sized { size: _ } => Ok(()),
                SizeInfo::SliceDst(trailing) => {
                    let word = trailing.size_rounding_align_and_phase;
                    if word.0 == 0 {
                        Err(Refusal::RoundingWordZero)
                    } else {
                        Ok(())
                    }
                }
            }
        } else {
            Err(Refusal::AlignNotPowerOfTwo)
        }
    }
}
