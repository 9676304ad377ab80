// A trailing layout advanced by bytes, after zerocopy's method advance of TrailingSliceLayout. A method stands in the crate of
// its type; this is a function in a crate of its own, since an edit of it then proves none of the layout's other functions again.
#![tactic(auto)]

ghost use Rattle.std.specs.Prelude.{◌≡◌};
ghost use Rattle.util_defs.specs.Refusal.{Meets};
ghost use Rattle.trailing_defs.specs.Calls.{advance_causes, advance_for, Advanced};
ghost use Rattle.trailing.specs.View.{trailing_of, advance_says};

use rounding::RoundingAlignAndPhase;
use trailing::{Decoded, TrailingSliceLayout};
use util::Refusal;

// The advance past the test of the rounding word.
fn advance_decoded(
    decoded: Decoded,
    bytes: u64,
    elem: u64,
) -> Result<TrailingSliceLayout<u64>, Refusal>
    ensures { advance_says result ≡ advance_for 64 (trailing_of decoded.layout) bytes elem }
{
    let align = decoded.align();
    let phase = decoded.parts.phase;
    let phase_capacity = u64::MAX - align.round_down(decoded.layout.size_base);
    // The base rounded down and the phase fit, so this does not go below 0.
    let max_advance = phase_capacity - phase;
    if bytes > max_advance {
        return Err(Refusal::AdvancePassesMax);
    }
    let advanced_phase = phase + bytes;
    let normalized_phase = align.remainder(advanced_phase);
    let whole_bytes = align.round_down(advanced_phase);
    Ok(TrailingSliceLayout {
        offset: decoded.layout.offset,
        elem_size: elem,
        size_base: decoded.layout.size_base + whole_bytes,
        size_rounding_align_and_phase: RoundingAlignAndPhase(align.value + normalized_phase),
    })
}

// The layout advanced by bytes, with another element size: its sizes are the old ones with that many bytes more.
pub fn advance(
    tail: TrailingSliceLayout<u64>,
    bytes: u64,
    elem_size: u64,
) -> Result<TrailingSliceLayout<u64>, Refusal>
    ensures answer { advance_says result ≡ advance_for 64 (trailing_of tail) bytes elem_size }
    ensures meaning { Meets (advance_causes 64 (trailing_of tail) bytes) (Advanced 64 (trailing_of tail) bytes elem_size)
        (advance_says result) }
{
    advance_decoded(tail.decoded()?, bytes, elem_size)
}
