// The composition with places for C and Rust: no logic of its own. include/lukaripe.h is its C side. It stands apart, so that
// what it calls is called once here, and inlined.
#![tactic(auto)]

ghost use Rattle.std.specs.Prelude.{◌≡◌, length};
ghost use Rattle.make.specs.Make.{empty_layout};
ghost use Rattle.compose_defs.specs.Places.{listed, places_of, gaps_of, places_for, written};
ghost use Rattle.exports_layouts.specs.Layouts.{composed_out};

use exports_layouts::ComposedOut;

// The layout of a member list, and the place of each member and the gap before it, in two lent slices.
#[unsafe(no_mangle)]
pub extern "C" fn lukaripe_for_repr_c_struct_places(
    repr_align: u64,
    repr_packed: u64,
    members: &[u8],
    places: &mut [u64],
    gaps: &mut [u64],
) -> ComposedOut
    ensures value { result ≡ composed_out (places_for 64 repr_align repr_packed members.now
        (length places.old) (length gaps.old)) }
    ensures places_after { places.new ≡ written (places_for 64 repr_align repr_packed members.now
        (length places.old) (length gaps.old))
        (places_of repr_packed (empty_layout repr_align) (listed 64 members.now)) places.old }
    ensures gaps_after { gaps.new ≡ written (places_for 64 repr_align repr_packed members.now
        (length places.old) (length gaps.old))
        (gaps_of repr_packed (empty_layout repr_align) (listed 64 members.now)) gaps.old }
{
    let answer = places::for_repr_c_struct_places(repr_align, repr_packed, members, places, gaps);
    ComposedOut::from(answer)
}
