// What C and Rust call of exports_share: an export for its function, with the same contract, and no logic of its own.
#![tactic(auto)]

ghost use Rattle.std.specs.Prelude.{◌≡◌};
ghost use Rattle.share_defs.specs.Share.{share_for};
ghost use Rattle.exports_numbers.specs.Numbers.{trailing_in};
ghost use Rattle.exports_share.specs.Shares.{share_out};

use exports_numbers::Trailing;
use exports_share::PaddingOut;

// How much of the sizes of a trailing layout at these counts is padding.
#[unsafe(no_mangle)]
pub extern "C" fn lukaripe_padding_of_counts(layout: Trailing, counts: &[u64]) -> PaddingOut
    ensures { result ≡ share_out (share_for 64 (trailing_in layout) counts.now) }
{
    exports_share::lukaripe_padding_of_counts(layout, counts)
}
