// A function for each recorded function: it takes the inputs from the line and tells the answer as a line has it.
// The number of a function and the order of its inputs are those of rust/differential/recorded.rs and its rows; so is the way
// bytes stand in a line, their length and then words.
ghost use Rattle.std.specs.Prelude.{◌≤◌, length};

use exports_layouts::Layout;
use exports_short::MovedOut;
use recorded::{Lent, Told, WIDTH};
use told::{FromLine, Tells, moved_told};

// The output of a rewriting is the front of these bytes, which are 165 before. No line agrees with a longer output, nor with one
// that is looked at from a later word on.
const AREA: usize = 512;

const LAST_SEEN: usize = 54;

fn read(line: &[u64; WIDTH]) -> Option<Told> {
    let lent = Lent::at(line, 1)?;
    let answer = exports_describe::lukaripe_read(lent.bytes());
    Some(answer.told(lent.inputs))
}

// The number once more, of functions that are called alike and told alike: a closure in its place would be lent, with a clause.
fn rewriting(number: u64, description: &[u8], out: &mut [u8]) -> MovedOut {
    match number {
        54 => exports_rewrite::lukaripe_lengthen_counts(description, out),
        _ => exports_rewrite::lukaripe_shorten_counts(description, out),
    }
}

// The description rewritten into the front of the area, which is looked at from this byte on.
// Not shared with the other width, as `rewritten` is not: what it calls calls exports that have a name at each.
fn rewritten_into(
    inputs: usize,
    number: u64,
    description: &[u8],
    area: &mut [u8],
    room: usize,
    at: usize,
) -> Told
    requires { (room ≤ length area.old) × (at ≤ 432) }
{
    let answer = rewriting(number, description, &mut area[..room]);
    moved_told(inputs, answer, area, at)
}

// As `moved` of replay_layouts but for what is called: one function of both would be public, with a promise of what a
// closure writes.
fn rewritten(line: &[u64; WIDTH]) -> Option<Told> {
    let out_length = line[1] as usize;
    let from = line[2] as usize;
    if out_length > AREA {
        return None;
    }
    if from > LAST_SEEN {
        return None;
    }
    let lent = Lent::at(line, 3)?;
    let mut area = [165u8; AREA];
    Some(rewritten_into(
        lent.inputs,
        line[0],
        lent.bytes(),
        &mut area,
        out_length,
        from * 8,
    ))
}

// What the function of the line tells. Its number is read from a file, so that a match on it is the plainest table of functions.
pub(crate) fn call(line: &[u64; WIDTH]) -> Option<Told> {
    match line[0] {
        51 => read(line),
        52 => Some(exports_elements::lukaripe_for_array(Layout::at(line, 1), line[7]).told(7)),
        53 => Some(exports_elements::lukaripe_for_slice_of(Layout::at(line, 1)).told(6)),
        54 | 55 => rewritten(line),
        _ => None,
    }
}
