// What the answers and inputs of the exports are in a recorded line: rust/differential/recorded.rs says in what order their
// numbers stand. One crate for both widths, since an impl stands in the crate of its trait or of its type.
#![tactic(auto)]

ghost use Rattle.std.specs.Prelude.{◌≡◌, ◌≤◌, ◌<◌, ◌+◌, List, ℕ, get_or};
ghost use Rattle.words.specs.Bytes.{read_for};
ghost use Rattle.recorded.specs.View.{told_of};
ghost use Rattle.told.specs.Beside.{test_numbers, short_numbers, moved_numbers, chosen};

use exports_short::MovedOut;
use recorded::{Told, WIDTH};
use words::read_word;

mod at32;
mod at64;

// An answer, which a line has behind so many inputs.
pub trait Tells {
    ghost numbers: { Self → List ℕ };

    fn told(self, inputs: usize) -> Told
        ensures { result ≡ told_of inputs (numbers self) };
}

// An input, which stands in the words of a line from one on, 0 where the line has no such word.
pub trait FromLine {
    ghost standing: { List ℕ → ℕ → Self };

    fn at(line: &[u64; WIDTH], from: usize) -> Self
        ensures { result ≡ standing line.now from };
}

// The number k places behind from, 0 where the line has none.
fn number_behind(line: &[u64; WIDTH], from: usize, k: usize) -> u64
    requires { k ≤ 5 }
    ensures { result ≡ get_or line.now (from + k) 0 }
{
    if from < WIDTH - k { line[from + k] } else { 0 }
}

// A test, which refuses nothing.
impl Tells for bool {
    ghost numbers = { test_numbers };

    fn told(self, inputs: usize) -> Told {
        Told::new(inputs, &[0, u64::from(self)])
    }
}

// What the writing of a short record answers, and the first words of the area, on a refusal too.
pub fn short_told(inputs: usize, refusal: u64, area: &[u8]) -> Told
    ensures { result ≡ told_of inputs (short_numbers refusal area.now) }
{
    Told::new(
        inputs,
        &[
            refusal,
            read_word(area, 0),
            read_word(area, 8),
            read_word(area, 16),
            read_word(area, 24),
            read_word(area, 32),
        ],
    )
}

// The word k bytes behind at, 0 where it is not among the bytes. The sum ends at the greatest number, where no word is.
#[tactic(auto, using(words::proofs::LittleEndian::read_outside))]
fn word_behind(s: &[u8], at: usize, k: usize) -> u64
    ensures { result ≡ read_for s.now (at + k) }
{
    read_word(s, at.saturating_add(k))
}

// What moves and rewritings answer, and ten words of the area from this byte on, on a refusal too.
pub fn moved_told(inputs: usize, a: MovedOut, area: &[u8], at: usize) -> Told
    ensures { result ≡ told_of inputs (moved_numbers a area.now at) }
{
    Told::new(
        inputs,
        &[
            a.refusal,
            a.place,
            a.written,
            read_word(area, at),
            word_behind(area, at, 8),
            word_behind(area, at, 16),
            word_behind(area, at, 24),
            word_behind(area, at, 32),
            word_behind(area, at, 40),
            word_behind(area, at, 48),
            word_behind(area, at, 56),
            word_behind(area, at, 64),
            word_behind(area, at, 72),
        ],
    )
}

// The greatest length of a slice that is lent for places, more than there are members.
pub const SLICE: usize = 16;

// The index of the place that a line asks for, among the members.
pub fn chosen(at: u64, count: usize) -> usize
    ensures is { result ≡ chosen at count }
    ensures within { result < 16 }
{
    if count == 0 {
        return 0;
    }
    let index = at as usize % count;
    if index < SLICE { index } else { 0 }
}
