// The conversion guarantee of the full mode at 32 bits, for C and Rust: no logic of its own. include/lukaripe32.h is its C
// side. It stands apart, so that the conversion of each mode is called once in its unit, and inlined. C has each function by
// its name, so that none is an instance of a generic one.
#![tactic(auto)]

ghost use Rattle.std.specs.Prelude.{◌≡◌};
ghost use Rattle.util_defs.specs.Refusal.{answered};
ghost use Rattle.full_defs.specs.Full.{sizes_agree};
ghost use Rattle.guarantee.specs.Demand.{answers_of};
ghost use Rattle.exports32_layouts.specs.Layouts.{with_layout32};
ghost use Rattle.exports32_guarantee.specs.Carried.{carried_out32};

use exports32_guarantee::CarriedOut32;
use exports32_layouts::Layout32;
use shift::Mode;

// Converts src_meta elements in the full mode, and casts bytes at addr to the target over two lengths.
#[unsafe(no_mangle)]
pub extern "C" fn lukaripe32_convert_and_cast_full(
    src: Layout32,
    dst: Layout32,
    src_meta: u32,
    addr: u32,
    bytes_len: u32,
    more_len: u32,
) -> CarriedOut32
    ensures { result ≡ carried_out32 (with_layout32 32 src (λ l. with_layout32 32 dst (λ m.
        answered (answers_of 32 (sizes_agree 32) l m src_meta addr bytes_len more_len)))) }
{
    exports32_guarantee::convert_and_cast(
        src,
        dst,
        src_meta,
        addr,
        bytes_len,
        more_len,
        Mode::Full,
    ).into()
}
