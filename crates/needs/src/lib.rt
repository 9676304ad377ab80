// What padding a layout needs, after zerocopy's DstLayout.
#![tactic(auto)]

ghost use Rattle.std.specs.Prelude.{◌≡◌, false, ◌<◌};
ghost use Rattle.util_defs.specs.Refusal.{answered, Meets, Tells};
ghost use Rattle.util.specs.View.{decision_says};
ghost use Rattle.trailing.specs.View.{trailing_of};
ghost use Rattle.layout_defs.specs.Layout.{trailing, layout_causes};
ghost use Rattle.layout.specs.View.{info_of, layout_of};
ghost use Rattle.padding_defs.specs.Pad.{static_for, DynamicPadding};
ghost use Rattle.padding_defs.specs.Pad.{dynamic_padding, dynamic_for};

use layout::{DstLayout, SizeInfo, ValidLayout};
use trailing::ValidTail;
use util::Refusal;

fn trailing_padding(valid: ValidTail) -> Result<bool, Refusal>
    ensures { decision_says result ≡ answered (dynamic_padding 64 (trailing (trailing_of valid.layout))) }
{
    let tail = valid.layout;
    let decoded = tail.decoded()?;
    let Ok(initial_size) = tail.size_for_elems(0) else {
        return Ok(true);
    };
    if initial_size == tail.offset {
        Ok(decoded.align().remainder(tail.elem_size) != 0)
    } else {
        Ok(true)
    }
}

fn dynamic_padding(valid: ValidLayout) -> Result<bool, Refusal>
    ensures { decision_says result ≡ answered (dynamic_padding 64 (info_of valid.layout.size_info)) }
{
    let size_info = valid.layout.size_info;
    match size_info {
        SizeInfo::Sized { size: _ } => Ok(false),
        SizeInfo::SliceDst(tail) => trailing_padding(ValidTail { layout: tail }),
    }
}

// Whether padding between the members is not ruled out. A yes does not mean that there is some.
pub fn requires_static_padding(layout: DstLayout<u64>) -> Result<bool, Refusal>
    ensures answer { decision_says result ≡ static_for 64 (layout_of layout) }
    ensures meaning { Meets (layout_causes 64 (layout_of layout)) (Tells ((layout_of layout).mark ≡ false))
        (decision_says result) }
{
    layout.check()?;
    let unpadded = layout.statically_shallow_unpadded;
    Ok(!unpadded)
}

// Whether padding after the elements is not ruled out at every count. A yes does not mean that a count needs some.
pub fn requires_dynamic_padding(layout: DstLayout<u64>) -> Result<bool, Refusal>
    ensures answer { decision_says result ≡ dynamic_for 64 (layout_of layout) }
    ensures meaning { Meets (layout_causes 64 (layout_of layout)) (Tells (DynamicPadding 64 (info_of layout.size_info)))
        (decision_says result) }
{
    layout.check()?;
    dynamic_padding(ValidLayout { layout })
}
