// What C and Rust call of exports32_guarantee: an export for its function, with the same contract, and no logic of its own. C has
// each function by its name, so that none is an instance of a generic one.
#![tactic(auto)]

ghost use Rattle.std.specs.Prelude.{◌≡◌};
ghost use Rattle.util_defs.specs.Refusal.{answered};
ghost use Rattle.trailing_defs.specs.Sequence.{same_sequence};
ghost use Rattle.guarantee.specs.Demand.{answers_of};
ghost use Rattle.exports32_layouts.specs.Layouts.{with_layout32};
ghost use Rattle.exports32_guarantee.specs.Carried.{carried_out32};

use exports32_guarantee::CarriedOut32;
use exports32_layouts::Layout32;

// Converts src_meta elements, and casts bytes at addr to the target over two lengths.
#[unsafe(no_mangle)]
pub extern "C" fn lukaripe32_convert_and_cast(
    src: Layout32,
    dst: Layout32,
    src_meta: u32,
    addr: u32,
    bytes_len: u32,
    more_len: u32,
) -> CarriedOut32
    ensures { result ≡ carried_out32 (with_layout32 32 src (λ l. with_layout32 32 dst (λ m.
        answered (answers_of 32 (same_sequence 32) l m src_meta addr bytes_len more_len)))) }
{
    exports32_guarantee::lukaripe32_convert_and_cast(src, dst, src_meta, addr, bytes_len, more_len)
}
