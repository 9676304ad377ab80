// A function for each recorded function at 32 bits: it takes the inputs from the line and tells the answer as a line has it.
// The number of a function and the order of its inputs are those of rust/differential/recorded.rs and its rows.
// The exports have a name at each width, and so have the functions here that call them.
use exports32_numbers::Trailing32;
use numbers32::low_word;
use recorded::{Told, WIDTH};
use told::{FromLine, Tells};

// The greatest number of counts: with those before them and the answer behind them they fill a line.
const COUNTS: usize = 50;

// The numbers behind the layout and the number of counts.
fn counts_of(line: &[u64; WIDTH]) -> [u32; COUNTS] {
    let mut counts = [0; COUNTS];
    for (count, number) in counts.iter_mut().zip(&line[6..]) {
        *count = low_word(*number);
    }
    counts
}

fn padding_of_counts(line: &[u64; WIDTH]) -> Option<Told> {
    let length = line[5] as usize;
    if length > COUNTS {
        return None;
    }
    let counts = counts_of(line);
    let answer = exports32_share::lukaripe32_padding_of_counts(
        Trailing32::at(line, 1),
        &counts[..length],
    );
    Some(answer.told(5 + length))
}

fn helper(line: &[u64; WIDTH]) -> Option<Told> {
    Some(match line[0] {
        1 => exports32_numbers::lukaripe32_is_power_of_two(low_word(line[1])).told(1),
        2 => exports32_numbers::lukaripe32_padding_needed_for(
            low_word(line[1]),
            low_word(line[2]),
        ).told(2),
        3 => exports32_numbers::lukaripe32_round_down_to_next_multiple_of_alignment(
            low_word(line[1]),
            low_word(line[2]),
        ).told(2),
        4 => exports32_numbers::lukaripe32_max(low_word(line[1]), low_word(line[2])).told(2),
        5 => exports32_numbers::lukaripe32_min(low_word(line[1]), low_word(line[2])).told(2),
        _ => return None,
    })
}

fn rounding(line: &[u64; WIDTH]) -> Option<Told> {
    Some(match line[0] {
        6 => exports32_numbers::lukaripe32_rounding_new(low_word(line[1]), low_word(line[2])).told(
            2,
        ),
        7 => exports32_numbers::lukaripe32_rounding_components(low_word(line[1])).told(1),
        8 => exports32_numbers::lukaripe32_rounding_align(low_word(line[1])).told(1),
        _ => return helper(line),
    })
}

fn trailing(line: &[u64; WIDTH]) -> Option<Told> {
    let t = Trailing32::at(line, 1);
    Some(match line[0] {
        9 => exports32_numbers::lukaripe32_size_offset(t).told(4),
        10 => exports32_numbers::lukaripe32_max_trailing_bytes(t, low_word(line[5])).told(5),
        11 => exports32_numbers::lukaripe32_padding_for_elems(t, low_word(line[5])).told(5),
        12 => exports32_numbers::lukaripe32_size_for_elems(t, low_word(line[5])).told(5),
        13 => exports32_numbers::lukaripe32_advance(t, low_word(line[5]), low_word(line[6])).told(
            6,
        ),
        14 => exports32_numbers::lukaripe32_has_same_size_sequence(t, Trailing32::at(line, 5)).told(
            8,
        ),
        _ => return rounding(line),
    })
}

fn full(line: &[u64; WIDTH]) -> Option<Told> {
    Some(match line[0] {
        43 => exports32_full::lukaripe32_sizes_agree(
            Trailing32::at(line, 1),
            Trailing32::at(line, 5),
        ).told(8),
        44 => exports32_full::lukaripe32_normal_form(Trailing32::at(line, 1)).told(4),
        _ => return trailing(line),
    })
}

// What the function of the line tells. Its number is read from a file, so that a match on it is the plainest table of functions.
pub(crate) fn call(line: &[u64; WIDTH]) -> Option<Told> {
    match line[0] {
        48 => padding_of_counts(line),
        _ => full(line),
    }
}
