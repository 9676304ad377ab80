// What C and Rust call of exports_strict: an export for its function, with the same contract, and no logic of its own.
#![tactic(auto)]

ghost use Rattle.std.specs.Prelude.{◌≡◌};
ghost use Rattle.compose_defs.specs.Compose.{strict, struct_for};
ghost use Rattle.exports_layouts.specs.Layouts.{composed_out};

use exports_layouts::ComposedOut;

// The layout of a member list where the Reference allows it.
#[unsafe(no_mangle)]
pub extern "C" fn lukaripe_for_repr_c_struct_strict(
    repr_align: u64,
    repr_packed: u64,
    members: &[u8],
) -> ComposedOut
    ensures { result ≡ composed_out (struct_for 64 strict repr_align repr_packed members.now) }
{
    exports_strict::lukaripe_for_repr_c_struct_strict(repr_align, repr_packed, members)
}
