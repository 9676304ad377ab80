// What C and Rust call of exports32_working_record: an export for its function, with the same contract, and no logic of its own.
// C has each function by its name, so that none is an instance of a generic one.
#![tactic(auto)]

ghost use Rattle.std.specs.Prelude.{◌≡◌};
ghost use Rattle.record_defs.specs.Record.{decode_for};
ghost use Rattle.exports_working.specs.Working.{working_for};
ghost use Rattle.exports32_layouts.specs.Layouts.{words_given32};
ghost use Rattle.exports32_working.specs.Working.{worked_out32};

use exports32_layouts::Layout32;

// Adds a member by its record to the lent layout; a refusal leaves it as it was.
#[unsafe(no_mangle)]
pub extern "C" fn lukaripe32_working_add_record(
    working: &mut Layout32,
    member: &[u8],
    repr_packed: u32,
) -> u64
    ensures value { result ≡ (worked_out32 (working_for 32 repr_packed (words_given32 working.old) (decode_for 32 member.now))
        working.old).refusal }
    ensures working_after { working.new
        ≡ (worked_out32 (working_for 32 repr_packed (words_given32 working.old) (decode_for 32 member.now))
        working.old).layout }
{
    exports32_working_record::lukaripe32_working_add_record(working, member, repr_packed)
}
