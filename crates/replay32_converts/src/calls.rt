// A function for each recorded function at 32 bits: it takes the inputs from the line and tells the answer as a line has it.
// The number of a function and the order of its inputs are those of rust/differential/recorded.rs and its rows.
// The exports have a name at each width, and so have the functions here that call them.
use exports32_converts::{CastOut32, CastParams32, CastParamsOut32};
use exports32_front::ServingOut32;
use exports32_guarantee::CarriedOut32;
use exports32_layouts::Layout32;
use exports32_numbers::{Number32, Trailing32};
use numbers32::low_word;
use recorded::{Told, WIDTH};
use told::{FromLine, Tells};

fn matched(line: &[u64; WIDTH]) -> Number32 {
    exports32_shift::lukaripe32_size_sequences_match(
        Trailing32::at(line, 1),
        Trailing32::at(line, 5),
        low_word(line[9]),
    )
}

fn cast(line: &[u64; WIDTH]) -> CastOut32 {
    exports32_converts::lukaripe32_validate_cast_and_convert_metadata(
        Layout32::at(line, 1),
        low_word(line[7]),
        low_word(line[8]),
        line[9] != 0,
    )
}

fn served(line: &[u64; WIDTH]) -> ServingOut32 {
    exports32_front::lukaripe32_which_serves(
        Layout32::at(line, 1),
        low_word(line[7]),
        line[8],
        low_word(line[9]),
        line[10],
    )
}

fn carried(line: &[u64; WIDTH]) -> CarriedOut32 {
    exports32_guarantee::lukaripe32_convert_and_cast(
        Layout32::at(line, 1),
        Layout32::at(line, 7),
        low_word(line[13]),
        low_word(line[14]),
        low_word(line[15]),
        low_word(line[16]),
    )
}

// In the full mode, here and below: the exports have a name in each, and so have these.
fn matched_full(line: &[u64; WIDTH]) -> Number32 {
    exports32_shift_full::lukaripe32_size_sequences_match_full(
        Trailing32::at(line, 1),
        Trailing32::at(line, 5),
        low_word(line[9]),
    )
}

fn computed_full(line: &[u64; WIDTH]) -> CastParamsOut32 {
    exports32_converts_full::lukaripe32_try_compute_full(
        Layout32::at(line, 1),
        Layout32::at(line, 7),
    )
}

fn carried_full(line: &[u64; WIDTH]) -> CarriedOut32 {
    exports32_guarantee_full::lukaripe32_convert_and_cast_full(
        Layout32::at(line, 1),
        Layout32::at(line, 7),
        low_word(line[13]),
        low_word(line[14]),
        low_word(line[15]),
        low_word(line[16]),
    )
}

// What the function of the line tells. Its number is read from a file, so that a match on it is the plainest table of functions.
pub(crate) fn call(line: &[u64; WIDTH]) -> Option<Told> {
    Some(match line[0] {
        28 => cast(line).told(9),
        29 => exports32_converts::lukaripe32_metadata_for_exact_size(
            Layout32::at(line, 1),
            low_word(line[7]),
        ).told(7),
        30 => matched(line).told(9),
        31 => exports32_converts::lukaripe32_try_compute(
            Layout32::at(line, 1),
            Layout32::at(line, 7),
        ).told(12),
        32 => exports32_converts::lukaripe32_cast_metadata(
            CastParams32::at(line, 1),
            low_word(line[5]),
        ).told(5),
        33 => carried(line).told(16),
        45 => matched_full(line).told(9),
        46 => computed_full(line).told(12),
        47 => carried_full(line).told(16),
        50 => served(line).told(10),
        _ => return None,
    })
}
