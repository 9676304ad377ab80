// Which of two buffers serves, for C and Rust: no logic of its own. include/lukaripe.h is its C side. A part of a buffer does not
// cross as a slice: what crosses is which buffer it is of, and how long it is.
#![tactic(auto)]

ghost use Rattle.std.specs.Prelude.{◌≡◌};
ghost use Rattle.util_defs.specs.Refusal.{answered};
ghost use Rattle.front_defs.specs.Front.{serving_for};
ghost use Rattle.front.specs.View.{serving_says};
ghost use Rattle.exports_layouts.specs.Layouts.{with_layout};
ghost use Rattle.exports_front.specs.Serving.{serving_out, serving_out_of};

use exports_layouts::Layout;
use front::Serving;
use layout::DstLayout;

// C has it by value, so that it is no enum.
#[repr(C)]
#[derive(Clone, Copy)]
pub struct ServingOut {
    pub map_refusal: u64,
    pub spare_refusal: u64,
    pub serves: u64,
    pub count: u64,
    pub split: u64,
}

impl From<Serving<u64>> for ServingOut {
    ghost from_gives = { λ a out. out ≡ serving_out (serving_says a) };

    #[inline(always)]
    fn from(a: Serving<u64>) -> ServingOut {
        match a {
            Serving::Map(granted) => ServingOut {
                map_refusal: 0,
                spare_refusal: 0,
                serves: 1,
                count: granted.elems,
                split: granted.split_at,
            },
            Serving::Spare {
                map_refusal,
                granted,
            } => ServingOut {
                map_refusal: map_refusal.number(),
                spare_refusal: 0,
                serves: 2,
                count: granted.elems,
                split: granted.split_at,
            },
            Serving::Neither {
                map_refusal,
                spare_refusal,
            } => ServingOut {
                map_refusal: map_refusal.number(),
                spare_refusal: spare_refusal.number(),
                serves: 0,
                count: 0,
                split: 0,
            },
        }
    }
}

// Which of a map and a spare serves, and how long the part of it is that is read in place.
#[unsafe(no_mangle)]
pub extern "C" fn lukaripe_which_serves(
    layout: Layout,
    map_addr: u64,
    map_len: u64,
    spare_addr: u64,
    spare_len: u64,
) -> ServingOut
    ensures { result ≡ serving_out_of (with_layout 64 layout (λ l.
        answered (serving_for 64 l map_addr map_len spare_addr spare_len))) }
{
    ServingOut::from(match DstLayout::try_from(layout) {
        Ok(l) => front::which_serves(l, map_addr, map_len, spare_addr, spare_len),
        // Serving is no Result by which to hand it on: it refuses both buffers.
        Err(refusal) => Serving::Neither {
            map_refusal: refusal,
            spare_refusal: refusal,
        },
    })
}
