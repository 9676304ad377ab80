// Nested type descriptions at 32 bits: the reader of both widths, whose layouts 32 bits then hold. Each call at 32 bits is a
// function of its own, and no instance of a generic one: it narrows what comes back, which at 64 bits there is no need of.
#![tactic(auto)]

ghost use Rattle.std.specs.Prelude.{◌≡◌};
ghost use Rattle.describe_defs.specs.Describe.{part_for, described_for};
ghost use Rattle.describe_defs.specs.Faults.{PartMeans, ReadMeans};
ghost use Rattle.describe.specs.View.{part_says, read_says};
ghost use Rattle.scalar32.specs.Target.{target32};
ghost use Rattle.describe32.specs.View.{low_part, low_read};

use describe::ReadPart;
use layout::{DstLayout, SizeInfo};
use util::RefusedAt;

// A part of 64 bits narrowed. No From: neither the trait nor a type of the impl would be of this crate.
pub fn low_part(
    answer: Result<ReadPart<u64>, RefusedAt<usize>>,
) -> Result<ReadPart<u32>, RefusedAt<usize>>
    ensures { part_says result ≡ low_part 32 (part_says answer) }
{
    answer.map(|read| ReadPart {
        layout: layouts32::low_layout(read.layout),
        next: read.next,
    })
}

// A description of 64 bits narrowed. No From: neither the trait nor a type of the impl would be of this crate.
fn low_read(
    answer: Result<DstLayout<u64>, RefusedAt<u64>>,
) -> Result<DstLayout<u32>, RefusedAt<u64>>
    ensures { read_says result ≡ low_read 32 (read_says answer) }
{
    answer.map(layouts32::low_layout)
}

// The part at at, with depth parts more that may be open.
pub fn part(s: &[u8], at: usize, depth: usize) -> Result<ReadPart<u32>, RefusedAt<usize>>
    ensures answer { part_says result ≡ part_for 32 target32 depth s.now at }
    ensures meaning { PartMeans 32 target32 s.now depth at (part_says result) }
{
    low_part(describe::part::<u32>(s, at, depth))
}

// The layout that the bytes describe.
pub fn read(description: &[u8]) -> Result<DstLayout<u32>, RefusedAt<u64>>
    ensures answer { read_says result ≡ described_for 32 target32 description.now }
    ensures meaning { ReadMeans 32 target32 description.now (read_says result) }
{
    low_read(describe::read::<u32>(description))
}
