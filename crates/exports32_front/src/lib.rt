// Which of two buffers serves at 32 bits, for C and Rust: no logic of its own. include/lukaripe32.h is its C side. A part of a
// buffer does not cross as a slice: what crosses is which buffer it is of, and how long it is. The buffers may have more bytes
// than 32 bits number. C has each function by its name, so that none is an instance of a generic one.
#![tactic(auto)]

ghost use Rattle.front.specs.View.{serving_says};
ghost use Rattle.std.specs.Prelude.{◌≡◌};
ghost use Rattle.util_defs.specs.Refusal.{answered};
ghost use Rattle.front_defs.specs.Front.{serving_for};
ghost use Rattle.exports32_layouts.specs.Layouts.{with_layout32};
ghost use Rattle.exports32_front.specs.Serving.{serving_out32, serving_out_of32};

use exports32_layouts::Layout32;
use front::Serving;
use layout::DstLayout;

// C has it by value and by name, so that it is no enum and has no type parameter.
#[repr(C)]
#[derive(Clone, Copy)]
pub struct ServingOut32 {
    pub map_refusal: u64,
    pub spare_refusal: u64,
    pub serves: u32,
    pub count: u32,
    pub split: u32,
}

impl From<Serving<u32>> for ServingOut32 {
    ghost from_gives = { λ a out. out ≡ serving_out32 (serving_says a) };

    #[inline(always)]
    fn from(a: Serving<u32>) -> ServingOut32 {
        match a {
            Serving::Map(granted) => ServingOut32 {
                map_refusal: 0,
                spare_refusal: 0,
                serves: 1,
                count: granted.elems,
                split: granted.split_at,
            },
            Serving::Spare {
                map_refusal,
                granted,
            } => ServingOut32 {
                map_refusal: map_refusal.number(),
                spare_refusal: 0,
                serves: 2,
                count: granted.elems,
                split: granted.split_at,
            },
            Serving::Neither {
                map_refusal,
                spare_refusal,
            } => ServingOut32 {
                map_refusal: map_refusal.number(),
                spare_refusal: spare_refusal.number(),
                serves: 0,
                count: 0,
                split: 0,
            },
        }
    }
}

// Which of a map and a spare serves, and how long the part of it is that is read in place.
#[unsafe(no_mangle)]
pub extern "C" fn lukaripe32_which_serves(
    layout: Layout32,
    map_addr: u32,
    map_len: u64,
    spare_addr: u32,
    spare_len: u64,
) -> ServingOut32
    ensures { result ≡ serving_out_of32 (with_layout32 32 layout (λ l.
        answered (serving_for 32 l map_addr map_len spare_addr spare_len))) }
{
    ServingOut32::from(match DstLayout::try_from(layout) {
        Ok(l) => front::which_serves(l, map_addr, map_len, spare_addr, spare_len),
        // Serving is no Result by which to hand it on: it refuses both buffers.
        Err(refusal) => Serving::Neither {
            map_refusal: refusal,
            spare_refusal: refusal,
        },
    })
}
