// What C and Rust call of exports_front: an export for its function, with the same contract, and no logic of its own.
#![tactic(auto)]

ghost use Rattle.std.specs.Prelude.{◌≡◌};
ghost use Rattle.util_defs.specs.Refusal.{answered};
ghost use Rattle.front_defs.specs.Front.{serving_for};
ghost use Rattle.exports_layouts.specs.Layouts.{with_layout};
ghost use Rattle.exports_front.specs.Serving.{serving_out_of};

use exports_front::ServingOut;
use exports_layouts::Layout;

// Which of a map and a spare serves, and how long the part of it is that is read in place.
#[unsafe(no_mangle)]
pub extern "C" fn lukaripe_which_serves(
    layout: Layout,
    map_addr: u64,
    map_len: u64,
    spare_addr: u64,
    spare_len: u64,
) -> ServingOut
    ensures { result ≡ serving_out_of (with_layout 64 layout (λ l.
        answered (serving_for 64 l map_addr map_len spare_addr spare_len))) }
{
    exports_front::lukaripe_which_serves(layout, map_addr, map_len, spare_addr, spare_len)
}
