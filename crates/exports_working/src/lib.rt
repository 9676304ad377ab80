// The working layout for C and Rust: no logic of its own. include/lukaripe.h is its C side. A layout crosses as six words, so the
// caller keeps those and lends them: a `DstLayout` holds an enum, which does not cross. The addition of a record stands apart, in
// exports_working_record, so that what an export calls is called once, and inlined.
#![tactic(auto)]

ghost use Rattle.std.specs.Prelude.{◌≡◌};
ghost use Rattle.make.specs.Make.{new_zst_for};
ghost use Rattle.record_defs.specs.Record.{words_for};
ghost use Rattle.layout.specs.View.{layout_says};
ghost use Rattle.exports_layouts.specs.Layouts.{words_given, layout_out};
ghost use Rattle.exports_working.specs.Working.{worked_out, working_for};

use exports_layouts::{Layout, LayoutOut};
use layout::DstLayout;
use util::Refusal;

// The addition of a member by value, to words by value.
pub fn add_words(lent: Layout, field: Layout, repr_packed: u64) -> Result<DstLayout<u64>, Refusal>
    ensures { layout_says result ≡ working_for 64 repr_packed (words_given lent) (words_for 64 (words_given field)) }
{
    let own = DstLayout::try_from(lent)?;
    let member = DstLayout::try_from(field)?;
    working::with_member(own, member, repr_packed)
}

// The empty layout that a working layout begins with.
#[unsafe(no_mangle)]
pub extern "C" fn lukaripe_working_begin(repr_align: u64) -> LayoutOut
    ensures { result ≡ layout_out (new_zst_for 64 repr_align) }
{
    LayoutOut::from(working::begin(repr_align))
}

// Adds a member to the lent layout; a refusal leaves it as it was. By a match: what is written stands beside the 0 that is
// answered.
#[unsafe(no_mangle)]
pub extern "C" fn lukaripe_working_add(working: &mut Layout, field: Layout, repr_packed: u64) -> u64
    ensures value { result ≡ (worked_out (working_for 64 repr_packed (words_given working.old) (words_for 64 (words_given field)))
        working.old).refusal }
    ensures working_after { working.new
        ≡ (worked_out (working_for 64 repr_packed (words_given working.old) (words_for 64 (words_given field)))
        working.old).layout }
{
    match add_words(*working, field, repr_packed) {
        Ok(layout) => {
            *working = Layout::from(layout);
            0
        }
        Err(refusal) => refusal.number(),
    }
}
