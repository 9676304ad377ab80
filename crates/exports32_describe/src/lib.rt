// The reader of type descriptions at 32 bits, and their rewriting, for C and Rust: no logic of their own. include/lukaripe32.h
// is their C side. C has each function by its name, so that none is an instance of a generic one.
#![tactic(auto)]

ghost use Rattle.std.specs.Prelude.{◌≡◌, length};
ghost use Rattle.describe_defs.specs.Describe.{described_for};
ghost use Rattle.rewrite_defs.specs.Rewrite.{longer, shorter, rewrite_for, bytes_for, filled};
ghost use Rattle.scalar32.specs.Target.{target32};
ghost use Rattle.exports_describe.specs.Read.{as_composed};
ghost use Rattle.exports_short.specs.Shorts.{moved_out};
ghost use Rattle.exports32_lists.specs.Lists.{composed_out32};

use exports_short::MovedOut;
use exports32_lists::ComposedOut32;

// The layout that the bytes describe.
#[unsafe(no_mangle)]
pub extern "C" fn lukaripe32_read(description: &[u8]) -> ComposedOut32
    ensures { result ≡ composed_out32 (as_composed (described_for 32 target32 description.now)) }
{
    ComposedOut32::from(describe32::read(description))
}

// The description with each member count in two bytes, into the front of out.
#[unsafe(no_mangle)]
pub extern "C" fn lukaripe32_lengthen_counts(description: &[u8], out: &mut [u8]) -> MovedOut
    ensures value { result ≡ moved_out (bytes_for 32 target32 longer description.now (length out.old)) }
    ensures out_after { out.new ≡ filled (rewrite_for 32 target32 longer description.now (length out.old))
        out.old }
{
    let answer = rewrite::lengthen_counts::<u32>(description, out);
    MovedOut::from(answer)
}

// The description with each member count in one byte.
#[unsafe(no_mangle)]
pub extern "C" fn lukaripe32_shorten_counts(description: &[u8], out: &mut [u8]) -> MovedOut
    ensures value { result ≡ moved_out (bytes_for 32 target32 shorter description.now (length out.old)) }
    ensures out_after { out.new ≡ filled (rewrite_for 32 target32 shorter description.now (length out.old))
        out.old }
{
    let answer = rewrite::shorten_counts::<u32>(description, out);
    MovedOut::from(answer)
}
