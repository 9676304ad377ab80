// The addition of a record to a working layout at 32 bits for C and Rust: no logic of its own. include/lukaripe32.h is its C
// side. C has each function by its name, so that none is an instance of a generic one; nor is what stands beside them over
// the structs that it has by name.
#![tactic(auto)]

ghost use Rattle.std.specs.Prelude.{◌≡◌};
ghost use Rattle.layout.specs.View.{layout_says};
ghost use Rattle.record_defs.specs.Record.{decode_for};
ghost use Rattle.exports_working.specs.Working.{working_for};
ghost use Rattle.exports32_layouts.specs.Layouts.{words_given32};
ghost use Rattle.exports32_working.specs.Working.{worked_out32};

use exports32_layouts::Layout32;
use layout::DstLayout;
use util::Refusal;

// The addition of a member by its record, to words by value.
pub fn add_record_words(
    lent: Layout32,
    member: &[u8],
    repr_packed: u32,
) -> Result<DstLayout<u32>, Refusal>
    ensures { layout_says result ≡ working_for 32 repr_packed (words_given32 lent) (decode_for 32 member.now) }
{
    let own = DstLayout::try_from(lent)?;
    working::with_record(own, member, repr_packed)
}

// Adds a member by its record to the lent layout; a refusal leaves it as it was. By a match: what is written stands beside
// the 0 that is answered.
#[unsafe(no_mangle)]
pub extern "C" fn lukaripe32_working_add_record(
    working: &mut Layout32,
    member: &[u8],
    repr_packed: u32,
) -> u64
    ensures value { result ≡ (worked_out32 (working_for 32 repr_packed (words_given32 working.old) (decode_for 32 member.now))
        working.old).refusal }
    ensures working_after { working.new
        ≡ (worked_out32 (working_for 32 repr_packed (words_given32 working.old) (decode_for 32 member.now))
        working.old).layout }
{
    match add_record_words(*working, member, repr_packed) {
        Ok(layout) => {
            *working = Layout32::from(layout);
            0
        }
        Err(refusal) => refusal.number(),
    }
}
