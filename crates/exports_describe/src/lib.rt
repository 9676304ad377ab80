// The reader of type descriptions for C and Rust: no logic of its own. include/lukaripe.h is its C side. It stands apart, so that
// what it calls is called once here, and inlined.
#![tactic(auto)]

ghost use Rattle.std.specs.Prelude.{◌≡◌};
ghost use Rattle.scalar.specs.Scalar.{target64};
ghost use Rattle.describe_defs.specs.Describe.{described_for};
ghost use Rattle.exports_layouts.specs.Layouts.{composed_out};
ghost use Rattle.exports_describe.specs.Read.{as_composed};

use exports_layouts::ComposedOut;

// The layout that the bytes describe.
#[unsafe(no_mangle)]
pub extern "C" fn lukaripe_read(description: &[u8]) -> ComposedOut
    ensures { result ≡ composed_out (as_composed (described_for 64 target64 description.now)) }
{
    ComposedOut::from(describe::read::<u64>(description))
}
