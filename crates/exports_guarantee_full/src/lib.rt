// The conversion guarantee of the full mode, for C and Rust: no logic of its own. include/lukaripe.h is its C side. It stands
// apart, so that the conversion of each mode is called once in its unit, and inlined.
#![tactic(auto)]

ghost use Rattle.std.specs.Prelude.{◌≡◌};
ghost use Rattle.util_defs.specs.Refusal.{answered};
ghost use Rattle.full_defs.specs.Full.{sizes_agree};
ghost use Rattle.guarantee.specs.Demand.{answers_of};
ghost use Rattle.exports_layouts.specs.Layouts.{with_layout};
ghost use Rattle.exports_guarantee.specs.Carried.{carried_out};

use exports_guarantee::CarriedOut;
use exports_layouts::Layout;
use shift::Mode;

// Converts src_meta elements in the full mode, and casts bytes at addr to the target over two lengths.
#[unsafe(no_mangle)]
pub extern "C" fn lukaripe_convert_and_cast_full(
    src: Layout,
    dst: Layout,
    src_meta: u64,
    addr: u64,
    bytes_len: u64,
    more_len: u64,
) -> CarriedOut
    ensures { result ≡ carried_out (with_layout 64 src (λ l. with_layout 64 dst (λ m.
        answered (answers_of 64 (sizes_agree 64) l m src_meta addr bytes_len more_len)))) }
{
    exports_guarantee::convert_and_cast(
        src,
        dst,
        src_meta,
        addr,
        bytes_len,
        more_len,
        Mode::Full,
    ).into()
}
