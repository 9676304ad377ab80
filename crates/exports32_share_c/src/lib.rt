// What C and Rust call of exports32_share: an export for its function, with the same contract, and no logic of its own. C has
// each function by its name, so that none is an instance of a generic one.
#![tactic(auto)]

ghost use Rattle.std.specs.Prelude.{◌≡◌};
ghost use Rattle.share_defs.specs.Share.{share_for};
ghost use Rattle.exports32_numbers.specs.Numbers.{trailing_in32};
ghost use Rattle.exports32_share.specs.Shares.{share_out32};

use exports32_numbers::Trailing32;
use exports32_share::PaddingOut32;

// How much of the sizes of a trailing layout at these counts is padding.
#[unsafe(no_mangle)]
pub extern "C" fn lukaripe32_padding_of_counts(layout: Trailing32, counts: &[u32]) -> PaddingOut32
    ensures { result ≡ share_out32 (share_for 32 (trailing_in32 layout) counts.now) }
{
    exports32_share::lukaripe32_padding_of_counts(layout, counts)
}
