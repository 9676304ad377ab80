// A page read in place, at either width: the front part of the map where its prefix cast is granted, else of the spare copy where
// that one's is (document 02, request 13). Both are only read, and no byte is copied.
#![tactic(auto)]

ghost use Rattle.std.specs.Prelude.{◌≡◌, ◌<◌, ◌^◌};
ghost use Rattle.std.proofs.Common.{rules};
ghost use Rattle.util.specs.View.{says};
ghost use Rattle.layout.specs.View.{layout_of};
ghost use Rattle.cast_defs.specs.Cast.{cast_for};
ghost use Rattle.cast.specs.View.{side_of, cast_says};
ghost use Rattle.front_defs.specs.Front.{serving_for, Serves, front_for, FrontMeans};
ghost use Rattle.front.specs.View.{granted_at, serving_at};

use cast::{CastType, Granted};
use layout::DstLayout;
use steps::Steps;
use util::Refusal;

// Which of two buffers serves, and what its cast granted; beside it why each cast before was refused.
#[derive(Clone, Copy)]
pub enum Serving<N> {
    Map(Granted<N>),
    Spare {
        map_refusal: Refusal,
        granted: Granted<N>,
    },
    Neither {
        map_refusal: Refusal,
        spare_refusal: Refusal,
    },
}

// The cast of a width. A buffer may have more bytes than the width numbers: its cast is refused, and its length never cut off.
pub trait Casts: Steps {
    fn cast_bytes(
        layout: DstLayout<Self>,
        addr: Self,
        bytes_len: u64,
        cast_type: CastType,
    ) -> Result<Granted<Self>, Refusal>
        ensures answer { says (granted_at Self.number) result
            ≡ cast_for Self.bits (Self.layout layout) (side_of cast_type) (Self.number addr) bytes_len }
        ensures fits { (Self.layout layout).align < 2 ^ Self.bits };

    ghost some: { 0 < Self.bits };
}

impl Casts for u64 {
    fn cast_bytes(
        layout: DstLayout<u64>,
        addr: u64,
        bytes_len: u64,
        cast_type: CastType,
    ) -> Result<Granted<u64>, Refusal>
        ensures answer { cast_says result ≡ cast_for 64 (layout_of layout) (side_of cast_type) addr bytes_len }
        ensures fits { layout.align < 2 ^ 64 }
    {
        cast::validate_cast_and_convert_metadata(layout, addr, bytes_len, cast_type)
    }

    ghost some = { Prim.search rules };
}

impl Casts for u32 {
    fn cast_bytes(
        layout: DstLayout<u32>,
        addr: u32,
        bytes_len: u64,
        cast_type: CastType,
    ) -> Result<Granted<u32>, Refusal>
        ensures answer { cast_says result ≡ cast_for 32 (layout_of layout) (side_of cast_type) addr bytes_len }
        ensures fits { layout.align < 2 ^ 32 }
    {
        casts32::cast_bytes(layout, addr, bytes_len, cast_type)
    }

    ghost some = { Prim.search rules };
}

// Which of a map and a spare serves. The spare is not looked at where the map does.
pub fn which_serves<W: Casts>(
    layout: DstLayout<W>,
    map_addr: W,
    map_len: u64,
    spare_addr: W,
    spare_len: u64,
) -> Serving<W>
    ensures answer { serving_at W.number result
        ≡ serving_for W.bits (W.layout layout) (W.number map_addr) map_len (W.number spare_addr) spare_len }
    ensures meaning { Serves W.bits (W.layout layout) (W.number map_addr) map_len (W.number spare_addr) spare_len
        (serving_at W.number result) }
    ensures fits { (W.layout layout).align < 2 ^ W.bits }
{
    match W::cast_bytes(layout, map_addr, map_len, CastType::Prefix) {
        Ok(granted) => Serving::Map(granted),
        Err(map_refusal) => {
            match W::cast_bytes(layout, spare_addr, spare_len, CastType::Prefix) {
                Ok(granted) => Serving::Spare {
                    map_refusal,
                    granted,
                },
                Err(spare_refusal) => Serving::Neither {
                    map_refusal,
                    spare_refusal,
                },
            }
        }
    }
}

// The front part of whichever serves, as long as its granted split; an empty part of the map where neither does. The map stands
// at map_addr, the spare at spare_addr.
pub fn front<'a, W: Casts>(
    layout: DstLayout<W>,
    map_addr: W,
    map: &'a [u8],
    spare_addr: W,
    spare: &'a [u8],
) -> &'a [u8]
    ensures answer { result.now
        ≡ front_for W.bits (W.layout layout) (W.number map_addr) map.now (W.number spare_addr) spare.now }
    ensures meaning { FrontMeans W.bits (W.layout layout) (W.number map_addr) map.now (W.number spare_addr) spare.now
        result.now }
{
    match which_serves(
        layout,
        map_addr,
        map.len() as u64,
        spare_addr,
        spare.len() as u64,
    ) {
        Serving::Map(granted) => &map[..granted.split_at.wide() as usize],
        Serving::Spare {
            map_refusal: _,
            granted,
        } => &spare[..granted.split_at.wide() as usize],
        Serving::Neither {
            map_refusal: _,
            spare_refusal: _,
        } => &map[..0],
    }
}
