// The padding over a list of counts at 32 bits for C and Rust: no logic of its own. include/lukaripe32.h is its C side. It
// stands apart, so that what it calls is called once here, and inlined. C has each function by its name, so that none is an
// instance of a generic one.
#![tactic(auto)]

ghost use Rattle.share.specs.View.{share_says};
ghost use Rattle.std.specs.Prelude.{◌≡◌};
ghost use Rattle.share_defs.specs.Share.{share_for};
ghost use Rattle.exports32_numbers.specs.Numbers.{trailing_in32};
ghost use Rattle.exports32_share.specs.Shares.{share_out32};

use exports32_numbers::Trailing32;
use share::Share;
use trailing::TrailingSliceLayout;
use util::RefusedAt;

// Total padding over total size and the mean size as fractions in lowest terms, the greatest padding and its first index; or
// the refusal and where. There may be more counts than 32 bits number: how many there are and an index have 64 bits. C has it
// by value and by name, so that it is no Result and has no type parameter.
#[repr(C)]
#[derive(Clone, Copy, Default)]
pub struct PaddingOut32 {
    pub refusal: u64,
    pub place: u64,
    pub padding_numerator: u32,
    pub padding_denominator: u32,
    pub mean_numerator: u32,
    pub mean_denominator: u64,
    pub greatest: u32,
    pub index: u64,
}

// The padding over counts as it crosses to C.
impl From<Result<Share<u32>, RefusedAt<u64>>> for PaddingOut32 {
    ghost from_gives = { λ a out. out ≡ share_out32 (share_says a) };

    fn from(a: Result<Share<u32>, RefusedAt<u64>>) -> PaddingOut32 {
        match a {
            Ok(share) => {
                let padding = share.padding;
                let mean = share.mean;
                PaddingOut32 {
                    refusal: 0,
                    place: 0,
                    padding_numerator: padding.numerator,
                    padding_denominator: padding.denominator,
                    mean_numerator: mean.numerator,
                    mean_denominator: mean.denominator,
                    greatest: share.greatest,
                    index: share.index,
                }
            }
            Err(RefusedAt { refusal, place }) => PaddingOut32 {
                refusal: refusal.number(),
                place,
                ..PaddingOut32::default()
            },
        }
    }
}

// How much of the sizes of a trailing layout at these counts is padding.
#[unsafe(no_mangle)]
pub extern "C" fn lukaripe32_padding_of_counts(layout: Trailing32, counts: &[u32]) -> PaddingOut32
    ensures { result ≡ share_out32 (share_for 32 (trailing_in32 layout) counts.now) }
{
    PaddingOut32::from(share::padding_of_counts32(TrailingSliceLayout::from(layout), counts))
}
