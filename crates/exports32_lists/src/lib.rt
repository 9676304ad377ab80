// The compositions of member lists at 32 bits for C and Rust: no logic of their own. include/lukaripe32.h is their C side. C
// has each function by its name, so that none is an instance of a generic one.
#![tactic(auto)]

ghost use Rattle.compose.specs.View.{compose_says};
ghost use Rattle.std.specs.Prelude.{◌≡◌, length};
ghost use Rattle.make.specs.Make.{empty_layout};
ghost use Rattle.compose_defs.specs.Compose.{ported, strict, compose_for, struct_for};
ghost use Rattle.compose_defs.specs.Places.{listed, places_of, gaps_of, places_for, written};
ghost use Rattle.exports32_lists.specs.Lists.{composed_out32};

use exports32_layouts::Layout32;
use layout::DstLayout;
use util::RefusedAt;

// A composed layout, or its refusal and where. C has it by value and by name, so that it is no Result and has no type
// parameter.
#[repr(C)]
#[derive(Clone, Copy)]
pub struct ComposedOut32 {
    pub refusal: u64,
    pub place: u64,
    pub layout: Layout32,
}

// A composition as it crosses to C.
impl From<Result<DstLayout<u32>, RefusedAt<u64>>> for ComposedOut32 {
    ghost from_gives = { λ a out. out ≡ composed_out32 (compose_says a) };

    #[inline(always)]
    fn from(a: Result<DstLayout<u32>, RefusedAt<u64>>) -> ComposedOut32 {
        match a {
            Ok(l) => ComposedOut32 {
                refusal: 0,
                place: 0,
                layout: Layout32::from(l),
            },
            Err(RefusedAt { refusal, place }) => ComposedOut32 {
                refusal: refusal.number(),
                place,
                layout: Layout32::default(),
            },
        }
    }
}

// The layout of a member list before its closing padding.
#[unsafe(no_mangle)]
pub extern "C" fn lukaripe32_compose(
    repr_align: u32,
    repr_packed: u32,
    members: &[u8],
) -> ComposedOut32
    ensures { result ≡ composed_out32 (compose_for 32 ported repr_align repr_packed members.now) }
{
    ComposedOut32::from(compose::compose(repr_align, repr_packed, members))
}

// The layout of a member list.
#[unsafe(no_mangle)]
pub extern "C" fn lukaripe32_for_repr_c_struct(
    repr_align: u32,
    repr_packed: u32,
    members: &[u8],
) -> ComposedOut32
    ensures { result ≡ composed_out32 (struct_for 32 ported repr_align repr_packed members.now) }
{
    ComposedOut32::from(compose::for_repr_c_struct(repr_align, repr_packed, members))
}

// The layout of a member list where the Reference allows it.
#[unsafe(no_mangle)]
pub extern "C" fn lukaripe32_for_repr_c_struct_strict(
    repr_align: u32,
    repr_packed: u32,
    members: &[u8],
) -> ComposedOut32
    ensures { result ≡ composed_out32 (struct_for 32 strict repr_align repr_packed members.now) }
{
    ComposedOut32::from(compose::for_repr_c_struct_strict(repr_align, repr_packed, members))
}

// The layout of a member list, and the place of each member and the gap before it, in two lent slices.
#[unsafe(no_mangle)]
pub extern "C" fn lukaripe32_for_repr_c_struct_places(
    repr_align: u32,
    repr_packed: u32,
    members: &[u8],
    places: &mut [u32],
    gaps: &mut [u32],
) -> ComposedOut32
    ensures value { result ≡ composed_out32 (places_for 32 repr_align repr_packed members.now
        (length places.old) (length gaps.old)) }
    ensures places_after { places.new ≡ written (places_for 32 repr_align repr_packed members.now
        (length places.old) (length gaps.old))
        (places_of repr_packed (empty_layout repr_align) (listed 32 members.now)) places.old }
    ensures gaps_after { gaps.new ≡ written (places_for 32 repr_align repr_packed members.now
        (length places.old) (length gaps.old))
        (gaps_of repr_packed (empty_layout repr_align) (listed 32 members.now)) gaps.old }
{
    let answer = places::for_repr_c_struct_places(repr_align, repr_packed, members, places, gaps);
    ComposedOut32::from(answer)
}
