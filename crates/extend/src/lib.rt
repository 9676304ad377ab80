// The member step, after zerocopy's method extend of DstLayout. A method stands in the crate of its type; the step and what it
// calls are functions in a crate of their own, since an edit of them then proves no other function of layouts again.
#![tactic(auto)]

ghost use Rattle.std.specs.Prelude.{◌≡◌, [], ◌∷◌, ℕ};
ghost use Rattle.util_defs.specs.Refusal.{refused, unless, Meets};
ghost use Rattle.trailing.specs.View.{trailing_of};
ghost use Rattle.layout_defs.specs.Layout.{trailing};
ghost use Rattle.layout_defs.specs.Extend.{member_align, extended, bad_packing, above_greatest};
ghost use Rattle.layout_defs.specs.Extend.{place_causes, step_causes, extend_causes, onto_for, extend_for, Extended, IsTrailing};
ghost use Rattle.util.specs.View.{number_of, says};
ghost use Rattle.layout.specs.View.{info_of, layout_of, sized_of, layout_says};

use layout::{DstLayout, SizeInfo, SizedLayout, ValidLayout};
use trailing::TrailingSliceLayout;
use util::{Align, Refusal};

// The greatest alignment, of the layout itself and of its member, and the greatest packing, while a member is added.
pub const CURRENT_MAX_ALIGN: u64 = 1 << 29;

// A packing of 0 is none.
fn bad_packing(repr_packed: u64) -> bool
    ensures { result ≡ (bad_packing 64 repr_packed).test }
{
    repr_packed != 0 && !util::is_power_of_two(repr_packed)
}

// A member's own alignment is tested, not what the packing leaves of it.
fn above_max(align: u64, field_align: u64, repr_packed: u64) -> bool
    ensures { result ≡ (above_greatest align field_align repr_packed).test }
{
    align > CURRENT_MAX_ALIGN || field_align > CURRENT_MAX_ALIGN || repr_packed > CURRENT_MAX_ALIGN
}

// A member's alignment: the packing lowers it.
fn packed_align(align: Align, repr_packed: u64) -> Result<Align, Refusal>
    ensures { says (λ a. a.value) result ≡ unless (bad_packing 64 repr_packed ∷ []) (member_align align.value repr_packed) }
{
    if repr_packed == 0 {
        return Ok(align);
    }
    let Ok(packing) = Align::new(repr_packed) else {
        return Err(Refusal::PackingNotPowerOfTwo);
    };
    if packing.value < align.value {
        Ok(packing)
    } else {
        Ok(align)
    }
}

// The step where the member's alignment is field_align, which is its own lowered by the packing.
fn extend_aligned(
    own: SizedLayout,
    field: DstLayout<u64>,
    field_align: Align,
) -> Result<DstLayout<u64>, Refusal>
    ensures { (packing : ℕ) → field_align.value ≡ member_align field.align packing → layout_says result ≡ unless
        (place_causes 64 (sized_of own) (layout_of field) packing) (extended (sized_of own) (layout_of field) packing) }
{
    let place = layout::round_up_to(own.size, field_align)?;
    placing::extend_at(own, field, field_align.value, place)
}

// The step of a member that is accepted.
fn extend_checked(
    own: SizedLayout,
    valid_field: ValidLayout,
    repr_packed: u64,
) -> Result<DstLayout<u64>, Refusal>
    ensures { layout_says result ≡ unless (step_causes 64 (sized_of own) (layout_of valid_field.layout) repr_packed)
        (extended (sized_of own) (layout_of valid_field.layout) repr_packed) }
{
    let field_align = packed_align(valid_field.align(), repr_packed)?;
    let field = valid_field.layout;
    if above_max(own.align, field.align, repr_packed) {
        return Err(Refusal::AlignAboveMax);
    }
    extend_aligned(own, field, field_align)
}

// `extend` of a layout with a size that is accepted: nothing is asked of its alignment, which a composition tests once. The
// layout, the member and the packing are, here and below, the parameters of the Rust's method.
#[inline(always)]
pub fn extend_onto(
    own: SizedLayout,
    field: DstLayout<u64>,
    repr_packed: u64,
) -> Result<DstLayout<u64>, Refusal>
    ensures { layout_says result ≡ onto_for 64 (sized_of own) (layout_of field) repr_packed }
{
    field.check()?;
    extend_checked(own, ValidLayout { layout: field }, repr_packed)
}

// `extend` of a layout with a size.
#[inline(always)]
pub fn extend_sized(
    own: SizedLayout,
    field: DstLayout<u64>,
    repr_packed: u64,
) -> Result<DstLayout<u64>, Refusal>
    ensures answer { layout_says result ≡ extend_for 64 (sized_of own) (layout_of field) repr_packed }
    ensures meaning { Meets (extend_causes 64 (sized_of own) (layout_of field) repr_packed)
        (Extended (sized_of own) (layout_of field) repr_packed) (layout_says result) }
{
    if util::is_power_of_two(own.align) {
        extend_onto(own, field, repr_packed)
    } else {
        Err(Refusal::AlignNotPowerOfTwo)
    }
}

// The refusal of a member after a trailing part: 7, where none comes before it. There is no answer but a refusal, so that this is
// no Result, and no `?` hands one on.
fn after_trailing(own: DstLayout<u64>, field: DstLayout<u64>, repr_packed: u64) -> Refusal
    requires { IsTrailing (info_of own.size_info) }
    ensures { refused (number_of result) ≡ extend_for 64 (layout_of own) (layout_of field) repr_packed }
{
    match own.check() {
        Ok(()) => match field.check() {
            Ok(()) => {
                if bad_packing(repr_packed) {
                    return Refusal::PackingNotPowerOfTwo;
                }
                if above_max(own.align, field.align, repr_packed) {
                    return Refusal::AlignAboveMax;
                }
                Refusal::MemberAfterTrailing
            }
            Err(refusal) => refusal,
        },
        Err(refusal) => refusal,
    }
}

// `extend` of a trailing layout, which is always refused: by what. By its parts, since a caller that has them in registers would
// lend a whole layout by memory.
pub fn extend_trailing(
    align: u64,
    tail: TrailingSliceLayout<u64>,
    unpadded: bool,
    align_modifier: bool,
    field: DstLayout<u64>,
    repr_packed: u64,
) -> Refusal
    ensures { refused (number_of result) ≡ extend_for 64
        (record { align = align; info = trailing (trailing_of tail); mark = unpadded; modifier = align_modifier })
        (layout_of field) repr_packed }
{
    let own = DstLayout {
        align,
        size_info: SizeInfo::SliceDst(tail),
        statically_shallow_unpadded: unpadded,
        align_modifier,
    };
    after_trailing(own, field, repr_packed)
}

// The layout with one member more, which stands at the least place that aligns it; no padding follows it.
pub fn extend(
    own: DstLayout<u64>,
    field: DstLayout<u64>,
    repr_packed: u64,
) -> Result<DstLayout<u64>, Refusal>
    ensures answer { layout_says result ≡ extend_for 64 (layout_of own) (layout_of field) repr_packed }
    ensures meaning { Meets (extend_causes 64 (layout_of own) (layout_of field) repr_packed)
        (Extended (layout_of own) (layout_of field) repr_packed) (layout_says result) }
{
    let size_info = own.size_info;
    match size_info {
        SizeInfo::Sized { size } => extend_sized(own.with_size(size), field, repr_packed),
        SizeInfo::SliceDst(_) => Err(after_trailing(own, field, repr_packed)),
    }
}
