// What C and Rust call of exports_working_record: an export for its function, with the same contract, and no logic of its own.
#![tactic(auto)]

ghost use Rattle.std.specs.Prelude.{◌≡◌};
ghost use Rattle.record_defs.specs.Record.{decode_for};
ghost use Rattle.exports_layouts.specs.Layouts.{words_given};
ghost use Rattle.exports_working.specs.Working.{worked_out, working_for};

use exports_layouts::Layout;

// Adds a member by its record to the lent layout; a refusal leaves it as it was.
#[unsafe(no_mangle)]
pub extern "C" fn lukaripe_working_add_record(
    working: &mut Layout,
    member: &[u8],
    repr_packed: u64,
) -> u64
    ensures value { result ≡ (worked_out (working_for 64 repr_packed (words_given working.old) (decode_for 64 member.now))
        working.old).refusal }
    ensures working_after { working.new
        ≡ (worked_out (working_for 64 repr_packed (words_given working.old) (decode_for 64 member.now))
        working.old).layout }
{
    exports_working_record::lukaripe_working_add_record(working, member, repr_packed)
}
