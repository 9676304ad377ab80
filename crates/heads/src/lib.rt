// The heads of the parts of a description: a tag, and what stands between that and the parts in it. Of words of so many bits: an
// alignment or a packing that they do not hold is refused.
#![tactic(auto)]

ghost use Rattle.std.specs.Prelude.{◌≡◌, ◌+◌, ◌≤◌, ◌<◌, length};
ghost use Rattle.util_defs.specs.Placed.{reached, go_on};
ghost use Rattle.describe_defs.specs.Describe.{count_bytes, opens, struct, tag_of, count_length, byte_at, count_at, power_at};
ghost use Rattle.describe_defs.specs.Heads.{packed_head, aligned_head, array_head, form_head, head_at, HeadMeans};
ghost use Rattle.heads.specs.View.{counted, number_read, head_says};

use util::{Refusal, RefusedAt};

// The tags that open a part, bytes of the format; a struct's member count has one byte, and behind a long struct's tag two. The
// bytes and a place among them go apart, as clauses speak of them: the parts of a head are read at a place each.
pub const ARRAY_TAG: u8 = 16;

pub const STRUCT_TAG: u8 = 17;

pub const SLICE_TAG: u8 = 18;

pub const LONG_STRUCT_TAG: u8 = 19;

// The tag of a scalar is its code.
pub const GREATEST_CODE: u8 = 8;

// One more than the greatest power.
const GREATEST_POWER_BYTE: u8 = 64;

// The bytes of an array's count.
pub const COUNT_BYTES: usize = 4;

// The bytes of a struct's member count.
#[derive(Clone, Copy)]
enum CountBytes {
    One,
    Two,
}

// The head of a part, of a struct with the place of its first member.
#[derive(Clone, Copy)]
pub enum PartHead {
    Scalar(u64),
    Array {
        count: u64,
    },
    Struct {
        align: u64,
        packed: u64,
        count: u64,
        first: usize,
    },
    Slice,
}

// The byte at at.
fn byte_at(s: &[u8], at: usize) -> Result<u8, RefusedAt<usize>>
    ensures { number_read result ≡ byte_at s.now at }
{
    s.get(at).copied().ok_or(RefusedAt {
        refusal: Refusal::DescriptionCut,
        place: at,
    })
}

// The count of an array.
fn read_count(s: &[u8], at: usize) -> Result<u64, RefusedAt<usize>>
    requires { at ≤ length s.now }
    ensures { number_read result ≡ count_at count_length s.now at }
{
    if s.len() - at < COUNT_BYTES {
        return Err(RefusedAt {
            refusal: Refusal::DescriptionCut,
            place: s.len(),
        });
    }
    Ok(u32::from_le_bytes([s[at], s[at + 1], s[at + 2], s[at + 3]]) as u64)
}

// The member count of a struct.
fn read_members(s: &[u8], at: usize, bytes: CountBytes) -> Result<u64, RefusedAt<usize>>
    ensures { number_read result ≡ count_at (count_bytes (counted bytes)) s.now at }
{
    let low = byte_at(s, at)?;
    match bytes {
        CountBytes::One => Ok(low as u64),
        CountBytes::Two => {
            let high = byte_at(s, at + 1)?;
            Ok(u16::from_le_bytes([low, high]) as u64)
        }
    }
}

// An alignment or a packing: 0 for none, else 1 + the power.
fn read_power(bits: u8, s: &[u8], at: usize) -> Result<u64, RefusedAt<usize>>
    ensures { number_read result ≡ power_at bits s.now at }
{
    let byte = byte_at(s, at)?;
    if byte > GREATEST_POWER_BYTE {
        return Err(RefusedAt {
            refusal: Refusal::TagOrPower,
            place: at,
        });
    }
    if byte > bits {
        return Err(RefusedAt {
            refusal: Refusal::NumberPassesWidth,
            place: at,
        });
    }
    if byte == 0 {
        return Ok(0);
    }
    Ok(1 << (byte - 1))
}

// The head of an array, whose tag is at at.
fn array_head(s: &[u8], at: usize) -> Result<PartHead, RefusedAt<usize>>
    requires { at < length s.now }
    ensures { head_says result ≡ go_on (count_at count_length s.now (at + 1)) (λ n. reached (array_head n)) }
{
    let count = read_count(s, at + 1)?;
    Ok(PartHead::Array { count })
}

// The bytes of a struct's head.
fn struct_bytes(bytes: CountBytes) -> usize
    ensures { result ≡ 3 + count_bytes (counted bytes) }
{
    match bytes {
        CountBytes::One => 4,
        CountBytes::Two => 5,
    }
}

// That of a struct behind its alignment and its packing.
fn packed_head(
    s: &[u8],
    at: usize,
    bytes: CountBytes,
    align: u64,
    packed: u64,
) -> Result<PartHead, RefusedAt<usize>>
    requires { at + 2 < length s.now }
    ensures { head_says result ≡ packed_head s.now at (counted bytes) align packed }
{
    let count = read_members(s, at + 3, bytes)?;
    Ok(PartHead::Struct {
        align,
        packed,
        count,
        first: at + struct_bytes(bytes),
    })
}

// That of a struct behind its alignment.
fn aligned_head(
    bits: u8,
    s: &[u8],
    at: usize,
    bytes: CountBytes,
    align: u64,
) -> Result<PartHead, RefusedAt<usize>>
    requires { at + 1 < length s.now }
    ensures { head_says result ≡ aligned_head bits s.now at (counted bytes) align }
{
    let packed = read_power(bits, s, at + 2)?;
    packed_head(s, at, bytes, align, packed)
}

// That of a struct, byte by byte.
fn struct_head(
    bits: u8,
    s: &[u8],
    at: usize,
    bytes: CountBytes,
) -> Result<PartHead, RefusedAt<usize>>
    requires { at < length s.now }
    ensures { head_says result ≡ form_head bits s.now at (struct (counted bytes)) }
{
    let align = read_power(bits, s, at + 1)?;
    aligned_head(bits, s, at, bytes, align)
}

// The bytes of the member count behind a struct's tag.
fn counted_by(tag: u8) -> CountBytes
    requires { (17 ≤ tag) × ((tag ≤ 19) × (tag ≡ 18 → ⊥)) }
    ensures { tag_of tag ≡ opens (struct (counted result)) }
{
    if tag == LONG_STRUCT_TAG {
        CountBytes::Two
    } else {
        CountBytes::One
    }
}

// The head of a part at at, with depth parts more that may be open.
pub fn head(bits: u8, s: &[u8], at: usize, depth: usize) -> Result<PartHead, RefusedAt<usize>>
    ensures answer { head_says result ≡ head_at bits depth s.now at }
    ensures meaning { HeadMeans bits depth s.now at (head_says result) }
{
    let tag = byte_at(s, at)?;
    match tag {
        0..=GREATEST_CODE => Ok(PartHead::Scalar(tag as u64)),
        ARRAY_TAG..=LONG_STRUCT_TAG if depth == 0 => Err(RefusedAt {
            refusal: Refusal::NestingTooDeep,
            place: at,
        }),
        ARRAY_TAG => array_head(s, at),
        SLICE_TAG => Ok(PartHead::Slice),
        STRUCT_TAG | LONG_STRUCT_TAG => struct_head(bits, s, at, counted_by(tag)),
        _ => Err(RefusedAt {
            refusal: Refusal::TagOrPower,
            place: at,
        }),
    }
}
