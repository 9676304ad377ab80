// A function for each recorded function: it takes the inputs from the line and tells the answer as a line has it.
// The number of a function and the order of its inputs are those of rust/differential/recorded.rs and its rows.
ghost use Rattle.std.specs.Prelude.{◌≤◌, length};

use exports_numbers::{Number, Trailing};
use recorded::{Told, WIDTH};
use told::{FromLine, Tells};

// The greatest number of counts: with those before them and the answer behind them they fill a line.
const COUNTS: usize = 50;

// The output of all cases is the front of so many bytes, of which ten words are looked at, from this one on at most.
const CASES_AREA: usize = 218496;

const LAST_CASES_SEEN: usize = 27302;

// The counts are the numbers behind the layout and their number.
fn padding_of_counts(line: &[u64; WIDTH]) -> Option<Told> {
    let length = line[5] as usize;
    if length > COUNTS {
        return None;
    }
    let counts = &line[6..6 + length];
    let answer = exports_share::lukaripe_padding_of_counts(Trailing::at(line, 1), counts);
    Some(answer.told(5 + length))
}

fn helper(line: &[u64; WIDTH]) -> Option<Told> {
    Some(match line[0] {
        1 => exports_numbers::lukaripe_is_power_of_two(line[1]).told(1),
        2 => exports_numbers::lukaripe_padding_needed_for(line[1], line[2]).told(2),
        3 => exports_numbers::lukaripe_round_down_to_next_multiple_of_alignment(
            line[1], line[2],
        ).told(2),
        4 => exports_numbers::lukaripe_max(line[1], line[2]).told(2),
        5 => exports_numbers::lukaripe_min(line[1], line[2]).told(2),
        _ => return None,
    })
}

fn rounding(line: &[u64; WIDTH]) -> Option<Told> {
    Some(match line[0] {
        6 => exports_numbers::lukaripe_rounding_new(line[1], line[2]).told(2),
        7 => exports_numbers::lukaripe_rounding_components(line[1]).told(1),
        8 => exports_numbers::lukaripe_rounding_align(line[1]).told(1),
        _ => return helper(line),
    })
}

fn trailing(line: &[u64; WIDTH]) -> Option<Told> {
    let t = Trailing::at(line, 1);
    Some(match line[0] {
        9 => exports_numbers::lukaripe_size_offset(t).told(4),
        10 => exports_numbers::lukaripe_max_trailing_bytes(t, line[5]).told(5),
        11 => exports_numbers::lukaripe_padding_for_elems(t, line[5]).told(5),
        12 => exports_numbers::lukaripe_size_for_elems(t, line[5]).told(5),
        13 => exports_numbers::lukaripe_advance(t, line[5], line[6]).told(6),
        14 => exports_numbers::lukaripe_has_same_size_sequence(t, Trailing::at(line, 5)).told(8),
        _ => return rounding(line),
    })
}

fn full(line: &[u64; WIDTH]) -> Option<Told> {
    Some(match line[0] {
        43 => exports_full::lukaripe_sizes_agree(Trailing::at(line, 1), Trailing::at(line, 5)).told(
            8,
        ),
        44 => exports_full::lukaripe_normal_form(Trailing::at(line, 1)).told(4),
        _ => return trailing(line),
    })
}

// A word of the area, so many bytes behind a place.
fn seen(area: &[u8], at: usize, behind: usize) -> u64 {
    words::read_word(area, at.wrapping_add(behind))
}

// The bytes written and ten words of the area, on a refusal too.
fn tell_cases(n: Number, area: &[u8], at: usize) -> Told {
    Told::new(
        3,
        &[
            n.refusal,
            n.value,
            seen(area, at, 0),
            seen(area, at, 8),
            seen(area, at, 16),
            seen(area, at, 24),
            seen(area, at, 32),
            seen(area, at, 40),
            seen(area, at, 48),
            seen(area, at, 56),
            seen(area, at, 64),
            seen(area, at, 72),
        ],
    )
}

fn cases_into(longest: u64, area: &mut [u8], room: usize, at: usize) -> Told
    requires { room ≤ length area.old }
{
    let answer = exports_cases::lukaripe_write_cases(longest, &mut area[..room]);
    tell_cases(answer, area, at)
}

fn cases(line: &[u64; WIDTH]) -> Option<Told> {
    let room = line[2] as usize;
    let from = line[3] as usize;
    if room > CASES_AREA {
        return None;
    }
    if from > LAST_CASES_SEEN {
        return None;
    }
    let mut area = [165u8; CASES_AREA];
    Some(cases_into(line[1], &mut area, room, from * 8))
}

// What the function of the line tells. Its number is read from a file, so that a match on it is the plainest table of functions.
pub(crate) fn call(line: &[u64; WIDTH]) -> Option<Told> {
    match line[0] {
        48 => padding_of_counts(line),
        49 => cases(line),
        _ => full(line),
    }
}
