// Short records for C and Rust, one by one, and how the moves of lists cross: no logic of their own. include/lukaripe.h is their
// C side. Each move stands in a crate of its own, so that what it calls is called there alone, and inlined.
#![tactic(auto)]

ghost use Rattle.std.specs.Prelude.{◌≡◌, length};
ghost use Rattle.short_defs.specs.Short.{decode_short_for, encode_short_words_for, encoded_short_words_into};
ghost use Rattle.exports_layouts.specs.Layouts.{words_given, layout_out, refusal_out};
ghost use Rattle.moves.specs.View.{move_says};
ghost use Rattle.exports_short.specs.Shorts.{moved_out};

use exports_layouts::{Layout, LayoutOut};
use record::Words;
use util::RefusedAt;

// The number of bytes that a move wrote, or its refusal and where. C has it by value, so that it is no Result.
#[repr(C)]
#[derive(Clone, Copy)]
pub struct MovedOut {
    pub refusal: u64,
    pub place: u64,
    pub written: u64,
}

// A move as it crosses to C.
impl From<Result<u64, RefusedAt<u64>>> for MovedOut {
    ghost from_gives = { λ a out. out ≡ moved_out (move_says a) };

    fn from(a: Result<u64, RefusedAt<u64>>) -> MovedOut {
        match a {
            Ok(written) => MovedOut {
                refusal: 0,
                place: 0,
                written,
            },
            Err(RefusedAt { refusal, place }) => MovedOut {
                refusal: refusal.number(),
                place,
                written: 0,
            },
        }
    }
}

// The layout of a short record.
#[unsafe(no_mangle)]
pub extern "C" fn lukaripe_decode_short(bytes: &[u8]) -> LayoutOut
    ensures { result ≡ layout_out (decode_short_for bytes.now) }
{
    LayoutOut::from(short::decode_short(bytes))
}

// The short record of a layout, into lent bytes.
#[unsafe(no_mangle)]
pub extern "C" fn lukaripe_encode_short(layout: Layout, out: &mut [u8]) -> u64
    ensures value { result ≡ refusal_out (encode_short_words_for (words_given layout) (length out.old)) }
    ensures out_after { out.new ≡ encoded_short_words_into (words_given layout) out.old }
{
    exports_layouts::refusal_number(short::encode_short_words(Words::from(layout), out))
}
