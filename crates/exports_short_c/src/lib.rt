// What C and Rust call of exports_short: an export for each of its functions, with the same contract, and no logic of its own.
#![tactic(auto)]

ghost use Rattle.std.specs.Prelude.{◌≡◌, length};
ghost use Rattle.short_defs.specs.Short.{decode_short_for, encode_short_words_for, encoded_short_words_into};
ghost use Rattle.exports_layouts.specs.Layouts.{words_given, layout_out, refusal_out};

use exports_layouts::{Layout, LayoutOut};

// The layout of a short record.
#[unsafe(no_mangle)]
pub extern "C" fn lukaripe_decode_short(bytes: &[u8]) -> LayoutOut
    ensures { result ≡ layout_out (decode_short_for bytes.now) }
{
    exports_short::lukaripe_decode_short(bytes)
}

// The short record of a layout, into lent bytes.
#[unsafe(no_mangle)]
pub extern "C" fn lukaripe_encode_short(layout: Layout, out: &mut [u8]) -> u64
    ensures value { result ≡ refusal_out (encode_short_words_for (words_given layout) (length out.old)) }
    ensures out_after { out.new ≡ encoded_short_words_into (words_given layout) out.old }
{
    exports_short::lukaripe_encode_short(layout, out)
}
