// The working layout at 32 bits for C and Rust: no logic of its own. include/lukaripe32.h is its C side. A layout crosses as
// six words, so the caller keeps those and lends them: a `DstLayout<u32>` holds an enum, which does not cross. The addition
// of a record stands apart, in exports32_working_record, so that what an export calls is called once, and inlined. C has
// each function by its name, so that none is an instance of a generic one; nor is what stands beside them over the structs
// that it has by name.
#![tactic(auto)]

ghost use Rattle.layout.specs.View.{layout_says};
ghost use Rattle.std.specs.Prelude.{◌≡◌};
ghost use Rattle.make.specs.Make.{new_zst_for};
ghost use Rattle.record_defs.specs.Record.{words_for};
ghost use Rattle.exports_working.specs.Working.{working_for};
ghost use Rattle.exports32_layouts.specs.Layouts.{words_given32, layout_out32};
ghost use Rattle.exports32_working.specs.Working.{worked_out32};

use exports32_layouts::{Layout32, LayoutOut32};
use layout::DstLayout;
use util::Refusal;

// The addition of a member by value, to words by value.
pub fn add_words(
    lent: Layout32,
    field: Layout32,
    repr_packed: u32,
) -> Result<DstLayout<u32>, Refusal>
    ensures { layout_says result ≡ working_for 32 repr_packed (words_given32 lent) (words_for 32 (words_given32 field)) }
{
    let own = DstLayout::try_from(lent)?;
    let member = DstLayout::try_from(field)?;
    working::with_member(own, member, repr_packed)
}

// The empty layout that a working layout begins with.
#[unsafe(no_mangle)]
pub extern "C" fn lukaripe32_working_begin(repr_align: u32) -> LayoutOut32
    ensures { result ≡ layout_out32 (new_zst_for 32 repr_align) }
{
    LayoutOut32::from(working::begin(repr_align))
}

// Adds a member to the lent layout; a refusal leaves it as it was. By a match: what is written stands beside the 0 that is
// answered.
#[unsafe(no_mangle)]
pub extern "C" fn lukaripe32_working_add(
    working: &mut Layout32,
    field: Layout32,
    repr_packed: u32,
) -> u64
    ensures value { result ≡ (worked_out32 (working_for 32 repr_packed (words_given32 working.old)
        (words_for 32 (words_given32 field))) working.old).refusal }
    ensures working_after { working.new
        ≡ (worked_out32 (working_for 32 repr_packed (words_given32 working.old) (words_for 32 (words_given32 field)))
        working.old).layout }
{
    match add_words(*working, field, repr_packed) {
        Ok(layout) => {
            *working = Layout32::from(layout);
            0
        }
        Err(refusal) => refusal.number(),
    }
}
