// Records of both forms at 32 bits for C and Rust: no logic of their own. include/lukaripe32.h is their C side. The moves of
// lists between the forms have no width. C has each function by its name, so that none is an instance of a generic one.
#![tactic(auto)]

ghost use Rattle.std.specs.Prelude.{◌≡◌, length};
ghost use Rattle.record_defs.specs.Record.{decode_for, fitted, encode_words_for, encoded_words_into};
ghost use Rattle.short_defs.specs.Short.{decode_short_for, encode_short_words_for, encoded_short_words_into};
ghost use Rattle.exports_layouts.specs.Layouts.{refusal_out};
ghost use Rattle.exports32_layouts.specs.Layouts.{words_given32, layout_out32};

use exports32_layouts::{Layout32, LayoutOut32};
use record::Words;

// The layout of a record.
#[unsafe(no_mangle)]
pub extern "C" fn lukaripe32_decode(bytes: &[u8]) -> LayoutOut32
    ensures { result ≡ layout_out32 (decode_for 32 bytes.now) }
{
    LayoutOut32::from(record32::decode(bytes))
}

// The record of a layout into 48 lent bytes: the refusal number, and then no byte has changed.
#[unsafe(no_mangle)]
pub extern "C" fn lukaripe32_encode(layout: Layout32, out: &mut [u8]) -> u64
    ensures value { result ≡ refusal_out (encode_words_for 32 (words_given32 layout) (length out.old)) }
    ensures out_after { out.new ≡ encoded_words_into 32 (words_given32 layout) out.old }
{
    exports_layouts::refusal_number(record::encode_words(Words::from(layout), out))
}

// The layout of a short record.
#[unsafe(no_mangle)]
pub extern "C" fn lukaripe32_decode_short(bytes: &[u8]) -> LayoutOut32
    ensures { result ≡ layout_out32 (fitted 32 (decode_short_for bytes.now)) }
{
    LayoutOut32::from(record32::fitting(short::decode_short(bytes)))
}

// The short record of a layout, into lent bytes.
#[unsafe(no_mangle)]
pub extern "C" fn lukaripe32_encode_short(layout: Layout32, out: &mut [u8]) -> u64
    ensures value { result ≡ refusal_out (encode_short_words_for (words_given32 layout) (length out.old)) }
    ensures out_after { out.new ≡ encoded_short_words_into (words_given32 layout) out.old }
{
    exports_layouts::refusal_number(short::encode_short_words(Words::from(layout), out))
}
