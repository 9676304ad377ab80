// Casts, after zerocopy's validate_cast_and_convert_metadata: how many elements the bytes at an address hold, and where they
// split.
#![tactic(auto)]

ghost use Rattle.std.specs.Prelude.{◌≡◌, [], ◌∷◌, ◌+◌, ◌^◌, ◌≤◌, ◌<◌};
ghost use Rattle.util_defs.specs.Refusal.{answered, unless, Meets};
ghost use Rattle.util.specs.View.{number_says};
ghost use Rattle.trailing_defs.specs.Calls.{GreatestIn};
ghost use Rattle.trailing.specs.View.{trailing_of};
ghost use Rattle.layout_defs.specs.Layout.{trailing};
ghost use Rattle.layout_defs.specs.Extend.{IsTrailing};
ghost use Rattle.layout.specs.View.{info_of, layout_of};
ghost use Rattle.cast_defs.specs.Cast.{prefix, tested_address, split_at, is_elem_zero, too_small, bytes_causes};
ghost use Rattle.cast_defs.specs.Cast.{cast_causes, greatest_grant, cast_for, GrantMeans, count_in};
ghost use Rattle.cast_defs.specs.Exact.{no_exact, exact_causes, exact_for, ExactIn};
ghost use Rattle.cast.specs.View.{side_of, cast_says};

use layout::{DstLayout, SizeInfo, ValidLayout};
use trailing::{Decoded, ValidTail};
use util::Refusal;

// Whether the bytes of a cast are those in front, or those at the end.
#[derive(Clone, Copy)]
pub enum CastType {
    Prefix,
    Suffix,
}

// The count of elements that a cast grants, and where the bytes split.
#[derive(Clone, Copy)]
pub struct Granted<N> {
    pub elems: N,
    pub split_at: N,
}

// The address that the alignment is held against.
fn tested_address(addr: u64, len: u64, cast_type: CastType) -> u64
    requires { addr + len < 2 ^ 64 }
    ensures { result ≡ tested_address (side_of cast_type) addr len }
{
    match cast_type {
        CastType::Prefix => addr,
        CastType::Suffix => addr + len,
    }
}

// Where the bytes split around size bytes in front, or at the end.
fn split_around(size: u64, len: u64, cast_type: CastType) -> u64
    requires { size ≤ len }
    ensures { result ≡ split_at (side_of cast_type) len size }
{
    match cast_type {
        CastType::Prefix => size,
        CastType::Suffix => len - size,
    }
}

// Whether the elements have no size, so that no count is the greatest.
fn elem_size_zero(size_info: SizeInfo<u64>) -> bool
    ensures { result ≡ is_elem_zero (info_of size_info) }
{
    match size_info {
        SizeInfo::Sized { size: _ } => false,
        SizeInfo::SliceDst(trailing) => trailing.elem_size == 0,
    }
}

// The greatest count in len bytes and its size, as the grant of a prefix. The size is what fits less the whole blocks that
// no element uses: it is not the length less the unused bytes.
fn fit_elems(decoded: Decoded, len: u64, max_slice_bytes: u64) -> Result<Granted<u64>, Refusal>
    requires { (0 < decoded.layout.elem_size) × GreatestIn 64 (trailing_of decoded.layout) len max_slice_bytes }
    ensures { cast_says result ≡ answered (greatest_grant 64 (trailing (trailing_of decoded.layout)) prefix len) }
{
    let tail = decoded.layout;
    let size_align = decoded.align();
    let elem_size = tail.elem_size;
    let elems = max_slice_bytes / elem_size;
    let unused_bytes = max_slice_bytes % elem_size;
    let unused_aligned_bytes = size_align.round_down(unused_bytes);
    let max_rounded_bytes = size_align.round_down(len - tail.size_base);
    Ok(Granted {
        elems,
        split_at: tail.size_base + (max_rounded_bytes - unused_aligned_bytes),
    })
}

fn fit_trailing(valid: ValidTail, len: u64) -> Result<Granted<u64>, Refusal>
    requires { 0 < valid.layout.elem_size }
    ensures { cast_says result ≡ unless (too_small 64 (trailing (trailing_of valid.layout)) len ∷ [])
        (greatest_grant 64 (trailing (trailing_of valid.layout)) prefix len) }
{
    let tail = valid.layout;
    let Ok(max_slice_bytes) = tail.max_trailing_bytes(len) else {
        return Err(Refusal::CastTooSmall);
    };
    fit_elems(tail.decoded()?, len, max_slice_bytes)
}

// The cast of a layout that passed its check: the alignment is judged before the size.
fn cast_checked(
    valid: ValidLayout,
    addr: u64,
    len: u64,
    cast_type: CastType,
) -> Result<Granted<u64>, Refusal>
    ensures { cast_says result ≡ unless (bytes_causes 64 (layout_of valid.layout) (side_of cast_type) addr len)
        (greatest_grant 64 (layout_of valid.layout).info (side_of cast_type) len) }
{
    let size_info = valid.layout.size_info;
    if elem_size_zero(size_info) {
        return Err(Refusal::CastElemSizeZero);
    }
    if u64::MAX - addr < len {
        return Err(Refusal::AddressPassesMax);
    }
    let tested = tested_address(addr, len, cast_type);
    if valid.align().remainder(tested) != 0 {
        return Err(Refusal::CastNotAligned);
    }
    match size_info {
        SizeInfo::Sized { size } => {
            if size > len {
                Err(Refusal::CastTooSmall)
            } else {
                Ok(Granted {
                    elems: 0,
                    split_at: split_around(size, len, cast_type),
                })
            }
        }
        SizeInfo::SliceDst(tail) => {
            let fit = fit_trailing(ValidTail { layout: tail }, len)?;
            Ok(Granted {
                elems: fit.elems,
                split_at: split_around(fit.split_at, len, cast_type),
            })
        }
    }
}

// The greatest count of elements that the bytes hold, and where the bytes split.
pub fn validate_cast_and_convert_metadata(
    layout: DstLayout<u64>,
    addr: u64,
    bytes_len: u64,
    cast_type: CastType,
) -> Result<Granted<u64>, Refusal>
    ensures answer { cast_says result ≡ cast_for 64 (layout_of layout) (side_of cast_type) addr bytes_len }
    ensures meaning { Meets (cast_causes 64 (layout_of layout) (side_of cast_type) addr bytes_len)
        (GrantMeans 64 (layout_of layout).info (side_of cast_type) bytes_len) (cast_says result) }
{
    layout.check()?;
    cast_checked(ValidLayout { layout }, addr, bytes_len, cast_type)
}

// The count of a layout's size, where the layout is trailing: that of a cast over size bytes that leaves none.
fn exact_elems(valid: ValidLayout, size: u64) -> Result<u64, Refusal>
    requires { IsTrailing (layout_of valid.layout).info }
    ensures { number_says result ≡ unless (no_exact 64 (layout_of valid.layout) size ∷ [])
        (count_in 64 (layout_of valid.layout).info size) }
{
    let Ok(granted) = cast_checked(valid, 0, size, CastType::Prefix) else {
        return Err(Refusal::NoExactCount);
    };
    if granted.split_at == size {
        Ok(granted.elems)
    } else {
        Err(Refusal::NoExactCount)
    }
}

fn exact_checked(valid: ValidLayout, size: u64) -> Result<u64, Refusal>
    ensures { number_says result ≡ unless (no_exact 64 (layout_of valid.layout) size ∷ [])
        (count_in 64 (layout_of valid.layout).info size) }
{
    let size_info = valid.layout.size_info;
    match size_info {
        SizeInfo::Sized { size: _ } => Err(Refusal::NoExactCount),
        SizeInfo::SliceDst(_) => exact_elems(valid, size),
    }
}

// The greatest count whose size is exactly size.
pub fn metadata_for_exact_size(layout: DstLayout<u64>, size: u64) -> Result<u64, Refusal>
    ensures answer { number_says result ≡ exact_for 64 (layout_of layout) size }
    ensures meaning { Meets (exact_causes 64 (layout_of layout) size) (ExactIn 64 (layout_of layout).info size)
        (number_says result) }
{
    layout.check()?;
    exact_checked(ValidLayout { layout }, size)
}
