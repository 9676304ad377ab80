// The rewriting of descriptions for C and Rust: no logic of its own. include/lukaripe.h is its C side.
#![tactic(auto)]

ghost use Rattle.std.specs.Prelude.{◌≡◌, length};
ghost use Rattle.scalar.specs.Scalar.{target64};
ghost use Rattle.rewrite_defs.specs.Rewrite.{longer, shorter, rewrite_for, bytes_for, filled};
ghost use Rattle.exports_short.specs.Shorts.{moved_out};

use exports_short::MovedOut;

// The description with each member count in two bytes, into the front of out.
#[unsafe(no_mangle)]
pub extern "C" fn lukaripe_lengthen_counts(description: &[u8], out: &mut [u8]) -> MovedOut
    ensures value { result ≡ moved_out (bytes_for 64 target64 longer description.now (length out.old)) }
    ensures out_after { out.new ≡ filled (rewrite_for 64 target64 longer description.now (length out.old))
        out.old }
{
    let answer = rewrite::lengthen_counts::<u64>(description, out);
    MovedOut::from(answer)
}

// The description with each member count in one byte.
#[unsafe(no_mangle)]
pub extern "C" fn lukaripe_shorten_counts(description: &[u8], out: &mut [u8]) -> MovedOut
    ensures value { result ≡ moved_out (bytes_for 64 target64 shorter description.now (length out.old)) }
    ensures out_after { out.new ≡ filled (rewrite_for 64 target64 shorter description.now (length out.old))
        out.old }
{
    let answer = rewrite::shorten_counts::<u64>(description, out);
    MovedOut::from(answer)
}
