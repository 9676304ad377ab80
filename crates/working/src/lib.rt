// A layout built member by member, at either width (document 02, request 14): a lent working layout, altered on each added
// member. The additions by value do the work; those over the reference copy the lent layout in, and what came of it out.
#![tactic(auto)]

ghost use Rattle.std.specs.Prelude.{◌≡◌, [], ℕ};
ghost use Rattle.util_defs.specs.Refusal.{answered};
ghost use Rattle.make.specs.Make.{new_zst_for};
ghost use Rattle.util.specs.View.{says};
ghost use Rattle.record_defs.specs.Record.{decode_for};
ghost use Rattle.compose_defs.specs.Compose.{composed, and_then, ported, compose_members};
ghost use Rattle.compose_defs.specs.Typed.{addition_for, NextMember};
ghost use Rattle.working.specs.View.{added_says, untouched};

use layout::DstLayout;
use steps::Steps;
use util::Refusal;

// The empty layout, with its own alignment; 0 means that none is asked for. What a composition of no members gives, under any
// packing.
pub fn begin<W: Steps>(repr_align: W) -> Result<DstLayout<W>, Refusal>
    ensures answer { says W.layout result ≡ new_zst_for W.bits (W.number repr_align) }
    ensures meaning { (packing : ℕ) → compose_members W.bits ported (W.number repr_align) packing []
        ≡ and_then (says W.layout result) 0 composed }
{
    W::new_zst(repr_align)
}

// The layout with one member more, by value.
pub fn with_member<W: Steps>(
    own: DstLayout<W>,
    field: DstLayout<W>,
    repr_packed: W,
) -> Result<DstLayout<W>, Refusal>
    ensures answer { says W.layout result
        ≡ addition_for W.bits (W.number repr_packed) (W.layout own) (answered (W.layout field)) }
    ensures meaning { NextMember W.bits (W.number repr_packed) (W.layout own) (answered (W.layout field))
        (says W.layout result) }
{
    W::extend(own, field, repr_packed)
}

// The same by the member's record; the working layout is tested before it.
pub fn with_record<W: Steps>(
    own: DstLayout<W>,
    member: &[u8],
    repr_packed: W,
) -> Result<DstLayout<W>, Refusal>
    ensures answer { says W.layout result
        ≡ addition_for W.bits (W.number repr_packed) (W.layout own) (decode_for W.bits member.now) }
    ensures meaning { NextMember W.bits (W.number repr_packed) (W.layout own) (decode_for W.bits member.now)
        (says W.layout result) }
{
    W::check(own)?;
    let field = W::decode(member)?;
    with_member(own, field, repr_packed)
}

// The addition of a member to a lent layout, which a refusal leaves as it was.
pub fn add<W: Steps>(
    own: &mut DstLayout<W>,
    field: DstLayout<W>,
    repr_packed: W,
) -> Result<(), Refusal>
    ensures answer { added_says W.layout result own.new
        ≡ addition_for W.bits (W.number repr_packed) (W.layout own.old) (answered (W.layout field)) }
    ensures meaning { NextMember W.bits (W.number repr_packed) (W.layout own.old) (answered (W.layout field))
        (added_says W.layout result own.new) }
    ensures lent { untouched result own.old own.new }
{
    *own = with_member(*own, field, repr_packed)?;
    Ok(())
}

// The addition of a member by its record to a lent layout, which a refusal leaves as it was.
pub fn add_record<W: Steps>(
    own: &mut DstLayout<W>,
    member: &[u8],
    repr_packed: W,
) -> Result<(), Refusal>
    ensures answer { added_says W.layout result own.new
        ≡ addition_for W.bits (W.number repr_packed) (W.layout own.old) (decode_for W.bits member.now) }
    ensures meaning { NextMember W.bits (W.number repr_packed) (W.layout own.old) (decode_for W.bits member.now)
        (added_says W.layout result own.new) }
    ensures lent { untouched result own.old own.new }
{
    *own = with_record(*own, member, repr_packed)?;
    Ok(())
}
