// The strict composition for C and Rust: no logic of its own. include/lukaripe.h is its C side. It stands apart, so that the
// ported composition does not test what this one heeds.
#![tactic(auto)]

ghost use Rattle.std.specs.Prelude.{◌≡◌};
ghost use Rattle.compose_defs.specs.Compose.{strict, struct_for};
ghost use Rattle.exports_layouts.specs.Layouts.{composed_out};

use exports_layouts::ComposedOut;

// The layout of a member list where the Reference allows it.
#[unsafe(no_mangle)]
pub extern "C" fn lukaripe_for_repr_c_struct_strict(
    repr_align: u64,
    repr_packed: u64,
    members: &[u8],
) -> ComposedOut
    ensures { result ≡ composed_out (struct_for 64 strict repr_align repr_packed members.now) }
{
    ComposedOut::from(compose::for_repr_c_struct_strict(repr_align, repr_packed, members))
}
