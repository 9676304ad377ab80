// Recorded answers: lines of decimal numbers with single spaces between, and whether a line has what a call told.
// rust/differential/recorded.rs says what the numbers of a line are; tools/record writes them.
#![tactic(auto)]

ghost use Rattle.std.specs.Prelude.{IfOk, IfSome, ◌≡◌, false, ◌+◌, ◌<◌, ◌≤◌, length, take, drop, replicate};
ghost use Rattle.io.specs.Counts.{IsPrefixLen};
ghost use Rattle.recorded_defs.specs.Lines.{end_of, number_from, line_at, same_from, agrees_with, one_more};
ghost use Rattle.recorded_defs.specs.Lines.{bytes_from, lent_within};
ghost use Rattle.std.specs.Fn.{FnReturnsAt};
ghost use Rattle.recorded.specs.View.{digit_says, number_says, line_says, lent_says, counted, told_of};
ghost use Rattle.recorded.specs.Tallies.{Tallies, TalliesSome};

use std::io::ErrorKind;
use std::rt::Files;
use std::{fmt, fs, io, str};

// A line has no more numbers than this.
pub const WIDTH: usize = 64;

// An answer has no more numbers than this, the refusal number among them.
pub const LENGTH: usize = 13;

// A number of a line.
#[derive(Clone, Copy)]
struct Number {
    value: u64,
    // Behind the byte that ends it.
    next: usize,
    // Whether that byte ends the line too.
    is_last: bool,
}

// A line that reads as numbers. They stand in an array of fixed length, as those that are told do: nothing here has a heap.
#[derive(Clone, Copy)]
struct Line {
    // The numbers of the line, and 0 after them.
    numbers: [u64; WIDTH],
    count: usize,
    // Where the next line starts.
    next: usize,
}

// What a call tells: how many inputs it took from the line, and the numbers of its answer, which the line has behind them.
#[derive(Clone, Copy)]
pub struct Told {
    pub inputs: usize,
    pub length: usize,
    pub numbers: [u64; LENGTH],
}

impl Told {
    // The numbers of an answer, behind so many inputs. No line agrees with more than LENGTH of them.
    pub fn new(inputs: usize, answer: &[u64]) -> Told
        ensures { result ≡ told_of inputs answer.now }
    {
        let length = answer.len();
        let mut numbers = [0; LENGTH];
        if length <= LENGTH {
            numbers[..length].copy_from_slice(answer);
        }
        Told {
            inputs,
            length,
            numbers,
        }
    }
}

mod lent;

pub use lent::Lent;

// The most bytes that a line lends: eight records.
pub const BYTES: usize = 384;

const WORDS: usize = BYTES / words::WORD_BYTES;

// Lines, and how many of them differ from what was told.
#[derive(Clone, Copy)]
pub struct Tally {
    pub lines: u64,
    pub differ: u64,
}

// A file has fewer bytes than this.
const TEXT_BYTES: usize = 131072;

// Room for a file.
pub fn buffer() -> [u8; TEXT_BYTES]
    ensures value { result ≡ replicate 131072 0 }
    ensures value_2 { 131072 ≡ length result }
{
    [0; TEXT_BYTES]
}

// Reads a file into the text and gives how many bytes were read. A file that cannot be opened or read is the answer.
pub fn load<R: Files>(rt: &R, name: &[u8], text: &mut [u8]) -> io::Result<usize>
    ensures { IfOk result (λ n. IsPrefixLen n text.new) }
{
    let Ok(path) = str::from_utf8(name) else {
        return Err(io::Error::from(ErrorKind::InvalidInput));
    };
    let mut file = fs::open(rt, path)?;
    reading::read_full(&mut file, text)
}

fn one_more(n: u64) -> u64
    ensures { result ≡ one_more n }
{
    n.saturating_add(1)
}

impl Tally {
    // One line more.
    pub fn with_line(self, agrees: bool) -> Tally
        ensures { result ≡ counted self agrees }
    {
        Tally {
            lines: one_more(self.lines),
            differ: if agrees {
                self.differ
            } else {
                one_more(self.differ)
            },
        }
    }
}

impl fmt::Display for Tally {
    fn fmt<W: fmt::Write>(&self, f: &mut fmt::Formatter<W>) -> fmt::Result {
        write!(f, "{} lines, {} differ", self.lines, self.differ)
    }
}

// The value of a digit.
fn digit(byte: u8) -> Option<u64>
    ensures { digit_says byte result }
{
    match byte {
        b'0'..=b'9' => Some(u64::from(byte - b'0')),
        _ => None,
    }
}

// The number before a byte that is no digit: value and has_digits as the definition has them, which counts 0 for no digits.
fn end_of(value: u64, has_digits: bool, byte: u8, next: usize) -> Option<Number>
    ensures { number_says result ≡ end_of value has_digits byte next }
{
    if !has_digits {
        return None;
    }
    match byte {
        b' ' => Some(Number {
            value,
            next,
            is_last: false,
        }),
        b'\n' => Some(Number {
            value,
            next,
            is_last: true,
        }),
        _ => None,
    }
}

// The number whose digits start at from.
fn read_number(text: &[u8], from: usize) -> Option<Number>
    ensures { number_says result ≡ number_from 0 false from (drop from text.now) }
{
    let mut value: u64 = 0;
    // By an index: what comes behind a number is told of by its place.
    for at in from..text.len() {
        let byte = text[at];
        let Some(digit) = digit(byte) else {
            return end_of(value, from < at, byte, at + 1);
        };
        if value > (u64::MAX - digit) / 10 {
            return None;
        }
        value = value * 10 + digit;
    }
    None
}

// The line that starts at from, if it reads as numbers.
fn read_line(text: &[u8], from: usize) -> Option<Line>
    ensures answer { line_says result ≡ line_at text.now from }
    ensures ahead { IfSome result (λ l. (from < l.next) × (l.next ≤ length text.now)) }
{
    let mut numbers = [0u64; WIDTH];
    let mut at = from;
    // By an index: the numbers are given back from within the loop, while an iterator over them would still hold them.
    for count in 0..WIDTH {
        let number = read_number(text, at)?;
        numbers[count] = number.value;
        at = number.next;
        if number.is_last {
            return Some(Line {
                numbers,
                count: count + 1,
                next: at,
            });
        }
    }
    None
}

// How many lines the text has, and how many of them differ from what the calls tell, as one does whose number is no
// function's, of which they tell nothing. Behind a line that does not read as numbers nothing is read. Lines have lengths of
// their own, so that no `for` goes from one to the next.
pub fn replay<F: Fn(&[u64; WIDTH]) -> Option<Told>>(text: &[u8], call: F) -> Tally
    requires { F.IsAlwaysCallable call }
    ensures { Tallies (FnReturnsAt F.Fn call) text.now 0 (record { lines = 0; differ = 0 }) result }
{
    let mut tally = Tally {
        lines: 0,
        differ: 0,
    };
    let mut at = 0;
    while at < text.len() {
        let Some(line) = read_line(text, at) else {
            return tally.with_line(false);
        };
        let numbers = line.numbers;
        let agrees = call(&numbers).is_some_and(|told| agrees(&numbers, line.count, told));
        tally = tally.with_line(agrees);
        at = line.next;
    }
    tally
}

// The same of the file of that name. One that cannot be read is told of on standard error, and has no lines.
pub fn replay_file<R: Files + Eprint, F: Fn(&[u64; WIDTH]) -> Option<Told>>(
    rt: &R,
    name: &str,
    call: F,
) -> io::Result<Tally>
    requires { F.IsAlwaysCallable call }
    ensures { IfOk result (TalliesSome (FnReturnsAt F.Fn call)) }
{
    let mut text = buffer();
    let n = match load(rt, name.as_bytes(), &mut text) {
        Ok(n) => n,
        Err(error) => {
            eprintln!(rt; "{name}: {error}")?;
            0
        }
    };
    Ok(replay(&text[..n], call))
}

// Whether the line has the function's number, its inputs, and then the numbers that were told and no others.
pub fn agrees(line: &[u64; WIDTH], count: usize, told: Told) -> bool
    ensures { result ≡ agrees_with line.now count told.inputs told.length told.numbers }
{
    if count > WIDTH {
        return false;
    }
    let length = told.length;
    if length > LENGTH {
        return false;
    }
    let inputs = told.inputs;
    if inputs > WIDTH {
        return false;
    }
    if count != 1 + inputs + length {
        return false;
    }
    let numbers = told.numbers;
    is_same(line, 1 + inputs, numbers, length)
}

// Whether the length numbers of the line from this one on are the first of those told.
fn is_same(line: &[u64; WIDTH], from: usize, told: [u64; LENGTH], length: usize) -> bool
    requires { (from + length ≤ 64) × (length ≤ 13) }
    ensures { result ≡ same_from length line.now from told 0 }
{
    line[from..from + length] == told[..length]
}

// The bytes of the words of the line from this one on, all of which the line has.
fn room_from(line: &[u64; WIDTH], from: usize) -> [u8; BYTES]
    requires { from ≤ 16 }
    ensures { result ≡ bytes_from 48 line.now from }
{
    let mut bytes = [0u8; BYTES];
    for (k, word) in line[from..from + WORDS].iter().enumerate() {
        words::put_word(&mut bytes, k * words::WORD_BYTES, *word);
    }
    bytes
}

// The bytes of the words of the line from this one on, 0 where the line has no such word.
pub fn bytes_from(line: &[u64; WIDTH], from: usize) -> [u8; BYTES]
    ensures { result ≡ bytes_from 48 line.now from }
{
    let behind = &line[from.min(WIDTH)..];
    let mut words = [0; WIDTH];
    words[..behind.len()].copy_from_slice(behind);
    room_from(&words, 0)
}

impl Lent {
    // Those whose number stands at this place of the line, and their words behind it; none, where a line does not lend so many.
    pub fn at(line: &[u64; WIDTH], at: usize) -> Option<Lent>
        ensures { lent_says result ≡ lent_within line.now at }
    {
        if at >= WIDTH - WORDS {
            return None;
        }
        let length = line[at] as usize;
        if length > BYTES {
            return None;
        }
        Some(Lent {
            room: room_from(line, at + 1),
            length,
            inputs: at + length.div_ceil(words::WORD_BYTES),
        })
    }

    pub fn bytes(&self) -> &[u8]
        ensures { result.now ≡ take self.now.length self.now.room }
    {
        &self.room[..self.length]
    }
}

#[cfg(test)]
mod tests;
