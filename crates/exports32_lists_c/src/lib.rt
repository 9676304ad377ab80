// What C and Rust call of exports32_lists: an export for each of its functions, with the same contract, and no logic of its own.
// C has each function by its name, so that none is an instance of a generic one.
#![tactic(auto)]

ghost use Rattle.std.specs.Prelude.{◌≡◌, length};
ghost use Rattle.make.specs.Make.{empty_layout};
ghost use Rattle.compose_defs.specs.Compose.{ported, strict, compose_for, struct_for};
ghost use Rattle.compose_defs.specs.Places.{listed, places_of, gaps_of, places_for, written};
ghost use Rattle.exports32_lists.specs.Lists.{composed_out32};

use exports32_lists::ComposedOut32;

// The layout of a member list before its closing padding.
#[unsafe(no_mangle)]
pub extern "C" fn lukaripe32_compose(
    repr_align: u32,
    repr_packed: u32,
    members: &[u8],
) -> ComposedOut32
    ensures { result ≡ composed_out32 (compose_for 32 ported repr_align repr_packed members.now) }
{
    exports32_lists::lukaripe32_compose(repr_align, repr_packed, members)
}

// The layout of a member list.
#[unsafe(no_mangle)]
pub extern "C" fn lukaripe32_for_repr_c_struct(
    repr_align: u32,
    repr_packed: u32,
    members: &[u8],
) -> ComposedOut32
    ensures { result ≡ composed_out32 (struct_for 32 ported repr_align repr_packed members.now) }
{
    exports32_lists::lukaripe32_for_repr_c_struct(repr_align, repr_packed, members)
}

// The layout of a member list where the Reference allows it.
#[unsafe(no_mangle)]
pub extern "C" fn lukaripe32_for_repr_c_struct_strict(
    repr_align: u32,
    repr_packed: u32,
    members: &[u8],
) -> ComposedOut32
    ensures { result ≡ composed_out32 (struct_for 32 strict repr_align repr_packed members.now) }
{
    exports32_lists::lukaripe32_for_repr_c_struct_strict(repr_align, repr_packed, members)
}

// The layout of a member list, and the place of each member and the gap before it, in two lent slices.
#[unsafe(no_mangle)]
pub extern "C" fn lukaripe32_for_repr_c_struct_places(
    repr_align: u32,
    repr_packed: u32,
    members: &[u8],
    places: &mut [u32],
    gaps: &mut [u32],
) -> ComposedOut32
    ensures value { result ≡ composed_out32 (places_for 32 repr_align repr_packed members.now
        (length places.old) (length gaps.old)) }
    ensures places_after { places.new ≡ written (places_for 32 repr_align repr_packed members.now
        (length places.old) (length gaps.old))
        (places_of repr_packed (empty_layout repr_align) (listed 32 members.now)) places.old }
    ensures gaps_after { gaps.new ≡ written (places_for 32 repr_align repr_packed members.now
        (length places.old) (length gaps.old))
        (gaps_of repr_packed (empty_layout repr_align) (listed 32 members.now)) gaps.old }
{
    exports32_lists::lukaripe32_for_repr_c_struct_places(
        repr_align,
        repr_packed,
        members,
        places,
        gaps,
    )
}
