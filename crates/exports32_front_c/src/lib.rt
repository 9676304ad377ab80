// What C and Rust call of exports32_front: an export for its function, with the same contract, and no logic of its own. C has
// each function by its name, so that none is an instance of a generic one.
#![tactic(auto)]

ghost use Rattle.std.specs.Prelude.{◌≡◌};
ghost use Rattle.util_defs.specs.Refusal.{answered};
ghost use Rattle.front_defs.specs.Front.{serving_for};
ghost use Rattle.exports32_layouts.specs.Layouts.{with_layout32};
ghost use Rattle.exports32_front.specs.Serving.{serving_out_of32};

use exports32_front::ServingOut32;
use exports32_layouts::Layout32;

// Which of a map and a spare serves, and how long the part of it is that is read in place.
#[unsafe(no_mangle)]
pub extern "C" fn lukaripe32_which_serves(
    layout: Layout32,
    map_addr: u32,
    map_len: u64,
    spare_addr: u32,
    spare_len: u64,
) -> ServingOut32
    ensures { result ≡ serving_out_of32 (with_layout32 32 layout (λ l.
        answered (serving_for 32 l map_addr map_len spare_addr spare_len))) }
{
    exports32_front::lukaripe32_which_serves(layout, map_addr, map_len, spare_addr, spare_len)
}
