// The padding over a list of counts for C and Rust: no logic of its own. include/lukaripe.h is its C side. It stands apart, so
// that what it calls is called once here, and inlined.
#![tactic(auto)]

ghost use Rattle.std.specs.Prelude.{◌≡◌};
ghost use Rattle.share_defs.specs.Share.{share_for};
ghost use Rattle.share.specs.View.{share_says};
ghost use Rattle.exports_numbers.specs.Numbers.{trailing_in};
ghost use Rattle.exports_share.specs.Shares.{share_out};

use exports_numbers::Trailing;
use share::Share;
use trailing::TrailingSliceLayout;
use util::RefusedAt;

// Total padding over total size and the mean size as fractions in lowest terms, the greatest padding and its first index; or
// the refusal and where. C has it by value, so that it is no Result.
#[repr(C)]
#[derive(Clone, Copy, Default)]
pub struct PaddingOut {
    pub refusal: u64,
    pub place: u64,
    pub padding_numerator: u64,
    pub padding_denominator: u64,
    pub mean_numerator: u64,
    pub mean_denominator: u64,
    pub greatest: u64,
    pub index: u64,
}

// The padding over counts as it crosses to C.
impl From<Result<Share<u64>, RefusedAt<u64>>> for PaddingOut {
    ghost from_gives = { λ a out. out ≡ share_out (share_says a) };

    fn from(a: Result<Share<u64>, RefusedAt<u64>>) -> PaddingOut {
        match a {
            Ok(share) => {
                let padding = share.padding;
                let mean = share.mean;
                PaddingOut {
                    refusal: 0,
                    place: 0,
                    padding_numerator: padding.numerator,
                    padding_denominator: padding.denominator,
                    mean_numerator: mean.numerator,
                    mean_denominator: mean.denominator,
                    greatest: share.greatest,
                    index: share.index,
                }
            }
            Err(RefusedAt { refusal, place }) => PaddingOut {
                refusal: refusal.number(),
                place,
                ..PaddingOut::default()
            },
        }
    }
}

// How much of the sizes of a trailing layout at these counts is padding.
#[unsafe(no_mangle)]
pub extern "C" fn lukaripe_padding_of_counts(layout: Trailing, counts: &[u64]) -> PaddingOut
    ensures { result ≡ share_out (share_for 64 (trailing_in layout) counts.now) }
{
    PaddingOut::from(share::padding_of_counts(TrailingSliceLayout::from(layout), counts))
}
