// The description reader, which keeps its width, its bytes and its place together.
#![tactic(auto)]

ghost use Rattle.std.specs.Prelude.{◌≡◌};
ghost use Rattle.describe.specs.View.{part_says};
ghost use Rattle.describe_reader.specs.At.{read_at};

use describe::{MAX_DEPTH, ReadPart};
use layout::{DstLayout, SizeInfo};
use util::RefusedAt;
use width::Width;

// In the order in which `part_at` takes them.
#[derive(Clone, Copy)]
pub struct Reader<'a> {
    pub width: Width,
    pub description: &'a [u8],
    pub place: usize,
}

// The part at a place, none open around it.
pub fn part_at(
    width: Width,
    description: &[u8],
    place: usize,
) -> Result<ReadPart<u64>, RefusedAt<usize>>
    ensures { part_says result ≡ read_at width description.now place }
{
    match width {
        Width::Bits32 => describe::part::<u32>(description, place, MAX_DEPTH),
        Width::Bits64 => describe::part::<u64>(description, place, MAX_DEPTH),
    }
}

impl<'a> Reader<'a> {
    // A reader at the first byte. The width is chosen here for all its parts, when the program runs.
    pub fn new(width: Width, description: &'a [u8]) -> Reader<'a>
        ensures { (result.width ≡ width) × ((result.description ≡ description.entry) × (result.place ≡ 0)) }
    {
        Reader {
            width,
            description,
            place: 0,
        }
    }

    // The part at the reader's place.
    pub fn next(self) -> Result<ReadPart<u64>, RefusedAt<usize>>
        ensures { part_says result ≡ read_at self.entry.width self.entry.description.now self.entry.place }
    {
        part_at(self.width, self.description, self.place)
    }

    // The reader at another place, as behind the part that was read.
    pub fn moved(self, place: usize) -> Reader<'a>
        ensures { (result.width ≡ self.entry.width) × ((result.description ≡ self.entry.description) × (result.place ≡ place)) }
    {
        Reader { place, ..self }
    }
}

// The first part of a description.
pub fn first(width: Width, description: &[u8]) -> Result<ReadPart<u64>, RefusedAt<usize>>
    ensures { part_says result ≡ read_at width description.now 0 }
{
    Reader::new(width, description).next()
}
