// A function for each recorded function: it takes the inputs from the line and tells the answer as a line has it.
// The number of a function and the order of its inputs are those of rust/differential/recorded.rs and its rows.
use exports_converts::{CastOut, CastParams, CastParamsOut};
use exports_front::ServingOut;
use exports_guarantee::CarriedOut;
use exports_layouts::Layout;
use exports_numbers::{Number, Trailing};
use recorded::{Told, WIDTH};
use told::{FromLine, Tells};

fn matched(line: &[u64; WIDTH]) -> Number {
    exports_shift::lukaripe_size_sequences_match(
        Trailing::at(line, 1),
        Trailing::at(line, 5),
        line[9],
    )
}

fn cast(line: &[u64; WIDTH]) -> CastOut {
    exports_converts::lukaripe_validate_cast_and_convert_metadata(
        Layout::at(line, 1),
        line[7],
        line[8],
        line[9] != 0,
    )
}

fn served(line: &[u64; WIDTH]) -> ServingOut {
    exports_front::lukaripe_which_serves(Layout::at(line, 1), line[7], line[8], line[9], line[10])
}

fn carried(line: &[u64; WIDTH]) -> CarriedOut {
    exports_guarantee::lukaripe_convert_and_cast(
        Layout::at(line, 1),
        Layout::at(line, 7),
        line[13],
        line[14],
        line[15],
        line[16],
    )
}

// In the full mode, here and below: the exports have a name in each, and so have these.
fn matched_full(line: &[u64; WIDTH]) -> Number {
    exports_shift_full::lukaripe_size_sequences_match_full(
        Trailing::at(line, 1),
        Trailing::at(line, 5),
        line[9],
    )
}

fn computed_full(line: &[u64; WIDTH]) -> CastParamsOut {
    exports_converts_full::lukaripe_try_compute_full(Layout::at(line, 1), Layout::at(line, 7))
}

fn carried_full(line: &[u64; WIDTH]) -> CarriedOut {
    exports_guarantee_full::lukaripe_convert_and_cast_full(
        Layout::at(line, 1),
        Layout::at(line, 7),
        line[13],
        line[14],
        line[15],
        line[16],
    )
}

// What the function of the line tells. Its number is read from a file, so that a match on it is the plainest table of functions.
pub(crate) fn call(line: &[u64; WIDTH]) -> Option<Told> {
    Some(match line[0] {
        28 => cast(line).told(9),
        29 => exports_converts::lukaripe_metadata_for_exact_size(Layout::at(line, 1), line[7]).told(
            7,
        ),
        30 => matched(line).told(9),
        31 => exports_converts::lukaripe_try_compute(Layout::at(line, 1), Layout::at(line, 7)).told(
            12,
        ),
        32 => exports_converts::lukaripe_cast_metadata(CastParams::at(line, 1), line[5]).told(5),
        33 => carried(line).told(16),
        45 => matched_full(line).told(9),
        46 => computed_full(line).told(12),
        47 => carried_full(line).told(16),
        50 => served(line).told(10),
        _ => return None,
    })
}
