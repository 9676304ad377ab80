// What C and Rust call of exports32_describe: an export for each of its functions, with the same contract, and no logic of its
// own. C has each function by its name, so that none is an instance of a generic one.
#![tactic(auto)]

ghost use Rattle.std.specs.Prelude.{◌≡◌, length};
ghost use Rattle.describe_defs.specs.Describe.{described_for};
ghost use Rattle.rewrite_defs.specs.Rewrite.{longer, shorter, rewrite_for, bytes_for, filled};
ghost use Rattle.scalar32.specs.Target.{target32};
ghost use Rattle.exports_describe.specs.Read.{as_composed};
ghost use Rattle.exports_short.specs.Shorts.{moved_out};
ghost use Rattle.exports32_lists.specs.Lists.{composed_out32};

use exports_short::MovedOut;
use exports32_lists::ComposedOut32;

// The layout that the bytes describe.
#[unsafe(no_mangle)]
pub extern "C" fn lukaripe32_read(description: &[u8]) -> ComposedOut32
    ensures { result ≡ composed_out32 (as_composed (described_for 32 target32 description.now)) }
{
    exports32_describe::lukaripe32_read(description)
}

// The description with each member count in two bytes, into the front of out.
#[unsafe(no_mangle)]
pub extern "C" fn lukaripe32_lengthen_counts(description: &[u8], out: &mut [u8]) -> MovedOut
    ensures value { result ≡ moved_out (bytes_for 32 target32 longer description.now (length out.old)) }
    ensures out_after { out.new ≡ filled (rewrite_for 32 target32 longer description.now (length out.old))
        out.old }
{
    exports32_describe::lukaripe32_lengthen_counts(description, out)
}

// The description with each member count in one byte.
#[unsafe(no_mangle)]
pub extern "C" fn lukaripe32_shorten_counts(description: &[u8], out: &mut [u8]) -> MovedOut
    ensures value { result ≡ moved_out (bytes_for 32 target32 shorter description.now (length out.old)) }
    ensures out_after { out.new ≡ filled (rewrite_for 32 target32 shorter description.now (length out.old))
        out.old }
{
    exports32_describe::lukaripe32_shorten_counts(description, out)
}
