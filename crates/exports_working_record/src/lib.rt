// The addition of a record to a working layout for C and Rust: no logic of its own. include/lukaripe.h is its C side.
#![tactic(auto)]

ghost use Rattle.std.specs.Prelude.{◌≡◌};
ghost use Rattle.layout.specs.View.{layout_says};
ghost use Rattle.record_defs.specs.Record.{decode_for};
ghost use Rattle.exports_layouts.specs.Layouts.{words_given};
ghost use Rattle.exports_working.specs.Working.{worked_out, working_for};

use exports_layouts::Layout;
use layout::DstLayout;
use util::Refusal;

// The addition of a member by its record, to words by value.
pub fn add_record_words(
    lent: Layout,
    member: &[u8],
    repr_packed: u64,
) -> Result<DstLayout<u64>, Refusal>
    ensures { layout_says result ≡ working_for 64 repr_packed (words_given lent) (decode_for 64 member.now) }
{
    let own = DstLayout::try_from(lent)?;
    working::with_record(own, member, repr_packed)
}

// Adds a member by its record to the lent layout; a refusal leaves it as it was. By a match: what is written stands beside
// the 0 that is answered.
#[unsafe(no_mangle)]
pub extern "C" fn lukaripe_working_add_record(
    working: &mut Layout,
    member: &[u8],
    repr_packed: u64,
) -> u64
    ensures value { result ≡ (worked_out (working_for 64 repr_packed (words_given working.old) (decode_for 64 member.now))
        working.old).refusal }
    ensures working_after { working.new
        ≡ (worked_out (working_for 64 repr_packed (words_given working.old) (decode_for 64 member.now))
        working.old).layout }
{
    match add_record_words(*working, member, repr_packed) {
        Ok(layout) => {
            *working = Layout::from(layout);
            0
        }
        Err(refusal) => refusal.number(),
    }
}
