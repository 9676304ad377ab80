// Final padding, after zerocopy's DstLayout.
#![tactic(auto)]

ghost use Rattle.std.specs.Prelude.{◌≡◌, [], ◌∷◌, ◌<◌};
ghost use Rattle.util_defs.specs.Round.{up};
ghost use Rattle.util_defs.specs.Refusal.{unless, Meets};
ghost use Rattle.trailing.specs.View.{trailing_of};
ghost use Rattle.layout_defs.specs.Layout.{trailing};
ghost use Rattle.layout_defs.specs.Extend.{rounding_passes};
ghost use Rattle.layout.specs.View.{info_of, layout_of, layout_says, info_says};
ghost use Rattle.padding_defs.specs.Pad.{fixed_part, coarser, finer, padded_tail, padded_mark, padded};
ghost use Rattle.padding_defs.specs.Pad.{padding_needs, pad_causes, pad_for, Padded};

use layout::{DstLayout, SizeInfo, ValidLayout};
use rounding::RoundingAlignAndPhase;
use trailing::{Decoded, TrailingSliceLayout, ValidTail};
use util::{Align, Refusal};

// Padding to an alignment above that of the rounding word. The fixed part of every size, the base rounded up to the word's
// alignment and the phase, splits into a multiple of the new alignment and the new phase.
fn pad_coarser(decoded: Decoded, align: Align) -> Result<SizeInfo<u64>, Refusal>
    ensures { info_says result ≡ unless (rounding_passes 64 (fixed_part 64 (trailing_of decoded.layout)) ∷ [])
        (trailing (coarser 64 align.value (trailing_of decoded.layout))) }
{
    let Decoded {
        layout: tail,
        parts,
    } = decoded;
    let rounded_base = layout::round_up_to(tail.size_base, decoded.align())?;
    if u64::MAX - rounded_base < parts.phase {
        return Err(Refusal::RoundingPassesMax);
    }
    let fixed_contribution = rounded_base + parts.phase;
    let phase = align.remainder(fixed_contribution);
    Ok(SizeInfo::SliceDst(TrailingSliceLayout {
        offset: tail.offset,
        elem_size: tail.elem_size,
        size_base: align.round_down(fixed_contribution),
        size_rounding_align_and_phase: RoundingAlignAndPhase(align.value + phase),
    }))
}

// Padding to an alignment that divides that of the rounding word: what the word rounds is a multiple of it already.
fn pad_finer(tail: TrailingSliceLayout<u64>, align: Align) -> Result<SizeInfo<u64>, Refusal>
    ensures { info_says result ≡ unless (rounding_passes 64 (up tail.size_base align.value) ∷ [])
        (trailing (finer align.value (trailing_of tail))) }
{
    let word = tail.size_rounding_align_and_phase;
    let size_base = layout::round_up_to(tail.size_base, align)?;
    Ok(SizeInfo::SliceDst(TrailingSliceLayout {
        offset: tail.offset,
        elem_size: tail.elem_size,
        size_base,
        size_rounding_align_and_phase: word,
    }))
}

fn pad_trailing(valid: ValidTail, align: Align) -> Result<SizeInfo<u64>, Refusal>
    ensures { info_says result ≡ unless
        (rounding_passes 64 (padding_needs 64 align.value (trailing (trailing_of valid.layout))) ∷ [])
        (trailing (padded_tail 64 align.value (trailing_of valid.layout))) }
{
    let decoded = valid.layout.decoded()?;
    if decoded.parts.align < align.value {
        pad_coarser(decoded, align)
    } else {
        pad_finer(decoded.layout, align)
    }
}

// Whether the mark stays: that of a fixed layout falls where padding adds bytes, which it does not to a multiple.
fn pad_mark(size_info: SizeInfo<u64>, align: Align, unpadded: bool) -> bool
    ensures { result ≡ padded_mark align.value (info_of size_info) unpadded }
{
    match size_info {
        SizeInfo::Sized { size } => unpadded && align.remainder(size) == 0,
        SizeInfo::SliceDst(_) => unpadded,
    }
}

#[inline(always)]
fn pad_checked(valid: ValidLayout) -> Result<DstLayout<u64>, Refusal>
    ensures { layout_says result
        ≡ unless (rounding_passes 64 (padding_needs 64 valid.layout.align (info_of valid.layout.size_info)) ∷ [])
        (padded 64 (layout_of valid.layout)) }
{
    let layout = valid.layout;
    let align = valid.align();
    let size_info = layout.size_info;
    let unpadded = pad_mark(size_info, align, layout.statically_shallow_unpadded);
    let align_modifier = layout.align_modifier;
    match size_info {
        SizeInfo::Sized { size } => {
            let padded = layout::round_up_to(size, align)?;
            Ok(DstLayout {
                align: layout.align,
                size_info: SizeInfo::Sized { size: padded },
                statically_shallow_unpadded: unpadded,
                align_modifier,
            })
        },
        SizeInfo::SliceDst(tail) => {
            let padded_info = pad_trailing(ValidTail { layout: tail }, align)?;
            Ok(DstLayout {
                align: layout.align,
                size_info: padded_info,
                statically_shallow_unpadded: unpadded,
                align_modifier,
            })
        },
    }
}

// The layout with the padding after its last member: each size rounded up to the alignment.
#[inline(always)]
pub fn pad_to_align(layout: DstLayout<u64>) -> Result<DstLayout<u64>, Refusal>
    ensures answer { layout_says result ≡ pad_for 64 (layout_of layout) }
    ensures meaning { Meets (pad_causes 64 (layout_of layout)) (Padded 64 (layout_of layout)) (layout_says result) }
{
    layout.check()?;
    pad_checked(ValidLayout { layout })
}
