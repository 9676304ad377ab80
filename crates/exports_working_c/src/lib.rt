// What C and Rust call of exports_working: an export for each of its functions, with the same contract, and no logic of its own.
#![tactic(auto)]

ghost use Rattle.std.specs.Prelude.{◌≡◌};
ghost use Rattle.make.specs.Make.{new_zst_for};
ghost use Rattle.record_defs.specs.Record.{words_for};
ghost use Rattle.exports_layouts.specs.Layouts.{words_given, layout_out};
ghost use Rattle.exports_working.specs.Working.{worked_out, working_for};

use exports_layouts::{Layout, LayoutOut};

// The empty layout that a working layout begins with.
#[unsafe(no_mangle)]
pub extern "C" fn lukaripe_working_begin(repr_align: u64) -> LayoutOut
    ensures { result ≡ layout_out (new_zst_for 64 repr_align) }
{
    exports_working::lukaripe_working_begin(repr_align)
}

// Adds a member to the lent layout; a refusal leaves it as it was.
#[unsafe(no_mangle)]
pub extern "C" fn lukaripe_working_add(working: &mut Layout, field: Layout, repr_packed: u64) -> u64
    ensures value { result ≡ (worked_out (working_for 64 repr_packed (words_given working.old) (words_for 64 (words_given field)))
        working.old).refusal }
    ensures working_after { working.new
        ≡ (worked_out (working_for 64 repr_packed (words_given working.old) (words_for 64 (words_given field)))
        working.old).layout }
{
    exports_working::lukaripe_working_add(working, field, repr_packed)
}
