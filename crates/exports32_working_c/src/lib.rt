// What C and Rust call of exports32_working: an export for each of its functions, with the same contract, and no logic of its
// own. C has each function by its name, so that none is an instance of a generic one.
#![tactic(auto)]

ghost use Rattle.std.specs.Prelude.{◌≡◌};
ghost use Rattle.make.specs.Make.{new_zst_for};
ghost use Rattle.record_defs.specs.Record.{words_for};
ghost use Rattle.exports_working.specs.Working.{working_for};
ghost use Rattle.exports32_layouts.specs.Layouts.{words_given32, layout_out32};
ghost use Rattle.exports32_working.specs.Working.{worked_out32};

use exports32_layouts::{Layout32, LayoutOut32};

// The empty layout that a working layout begins with.
#[unsafe(no_mangle)]
pub extern "C" fn lukaripe32_working_begin(repr_align: u32) -> LayoutOut32
    ensures { result ≡ layout_out32 (new_zst_for 32 repr_align) }
{
    exports32_working::lukaripe32_working_begin(repr_align)
}

// Adds a member to the lent layout; a refusal leaves it as it was.
#[unsafe(no_mangle)]
pub extern "C" fn lukaripe32_working_add(
    working: &mut Layout32,
    field: Layout32,
    repr_packed: u32,
) -> u64
    ensures value { result ≡ (worked_out32 (working_for 32 repr_packed (words_given32 working.old)
        (words_for 32 (words_given32 field))) working.old).refusal }
    ensures working_after { working.new
        ≡ (worked_out32 (working_for 32 repr_packed (words_given32 working.old) (words_for 32 (words_given32 field)))
        working.old).layout }
{
    exports32_working::lukaripe32_working_add(working, field, repr_packed)
}
