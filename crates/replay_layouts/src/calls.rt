// A function for each recorded function: it takes the inputs from the line and tells the answer as a line has it.
// The number of a function and the order of its inputs are those of rust/differential/recorded.rs and its rows; so is the way
// bytes stand in a line, their length and then words.
ghost use Rattle.std.specs.Prelude.{◌≤◌, length};

use exports_layouts::{ComposedOut, Layout, LayoutOut};
use exports_short::MovedOut;
use recorded::{BYTES, Lent, Told, WIDTH};
use told::{FromLine, SLICE, Tells, chosen, moved_told, short_told};

// The output of short records and of moves is the front of these bytes, which are 165 before. No line agrees with a longer
// output, nor with one that is looked at from a later word on.
const AREA: usize = 512;

const LAST_SEEN: usize = 54;

fn decode(line: &[u64; WIDTH]) -> Option<Told> {
    let lent = Lent::at(line, 1)?;
    let answer = exports_layouts::lukaripe_decode(lent.bytes());
    Some(answer.told(lent.inputs))
}

// What is read back from the bytes that were written. On a refusal they are still those that were lent, which read as no record.
fn encoded(l: Layout, out: &mut [u8]) -> LayoutOut {
    let refusal = exports_layouts::lukaripe_encode(l, out);
    let read = exports_layouts::lukaripe_decode(out);
    let layout = read.layout;
    if refusal == 0 {
        return read;
    }
    LayoutOut { refusal, layout }
}

fn encode(line: &[u64; WIDTH]) -> Option<Told> {
    let length = line[7] as usize;
    if length > BYTES {
        return None;
    }
    let mut bytes = [0u8; BYTES];
    let answer = encoded(Layout::at(line, 1), &mut bytes[..length]);
    Some(answer.told(7))
}

// The number once more, of functions that are called alike and told alike: a closure in its place would be lent, with a clause.
fn composition(number: u64, repr_align: u64, repr_packed: u64, members: &[u8]) -> ComposedOut {
    match number {
        26 => exports_layouts::lukaripe_compose(repr_align, repr_packed, members),
        27 => exports_layouts::lukaripe_for_repr_c_struct(repr_align, repr_packed, members),
        _ => exports_strict::lukaripe_for_repr_c_struct_strict(repr_align, repr_packed, members),
    }
}

// Not shared with the other width: what it calls calls exports that have a name at each.
fn composed(line: &[u64; WIDTH]) -> Option<Told> {
    let lent = Lent::at(line, 3)?;
    let answer = composition(line[0], line[1], line[2], lent.bytes());
    Some(answer.told(lent.inputs))
}

fn tell_placed(inputs: usize, a: ComposedOut, place: u64, gap: u64) -> Told {
    let l = a.layout;
    Told::new(
        inputs,
        &[
            a.refusal,
            a.place,
            l.align,
            l.kind,
            l.size_base,
            l.offset,
            l.elem_size,
            l.word,
            place,
            gap,
        ],
    )
}

// The place of one member and the gap before it, of members that are fewer than the slices can hold. On a refusal they are
// still the zeros that were lent.
fn placed(line: &[u64; WIDTH]) -> Option<Told> {
    let places_length = line[3] as usize;
    let gaps_length = line[4] as usize;
    if places_length > SLICE {
        return None;
    }
    if gaps_length > SLICE {
        return None;
    }
    let lent = Lent::at(line, 6)?;
    let mut places = [0u64; SLICE];
    let mut gaps = [0u64; SLICE];
    let answer = exports_places::lukaripe_for_repr_c_struct_places(
        line[1],
        line[2],
        lent.bytes(),
        &mut places[..places_length],
        &mut gaps[..gaps_length],
    );
    let at = chosen(line[5], lent.bytes().len() / 48);
    Some(tell_placed(lent.inputs, answer, places[at], gaps[at]))
}

// The words of the working layout after an addition, on a refusal those that were lent.
fn worked(line: &[u64; WIDTH]) -> Told {
    let mut layout = Layout::at(line, 1);
    let refusal = exports_working::lukaripe_working_add(&mut layout, Layout::at(line, 7), line[13]);
    LayoutOut { refusal, layout }.told(13)
}

fn worked_by_record(line: &[u64; WIDTH]) -> Option<Told> {
    let record = Lent::at(line, 8)?;
    let mut layout = Layout::at(line, 1);
    let refusal = exports_working_record::lukaripe_working_add_record(
        &mut layout,
        record.bytes(),
        line[7],
    );
    Some(LayoutOut { refusal, layout }.told(record.inputs))
}

fn decode_short(line: &[u64; WIDTH]) -> Option<Told> {
    let lent = Lent::at(line, 1)?;
    let answer = exports_short::lukaripe_decode_short(lent.bytes());
    Some(answer.told(lent.inputs))
}

// The short record into the front of the area.
fn encoded_short(l: Layout, area: &mut [u8], room: usize) -> Told
    requires { room ≤ length area.old }
{
    let refusal = exports_short::lukaripe_encode_short(l, &mut area[..room]);
    short_told(7, refusal, area)
}

fn encode_short(line: &[u64; WIDTH]) -> Option<Told> {
    let length = line[7] as usize;
    if length > AREA {
        return None;
    }
    let mut area = [165u8; AREA];
    Some(encoded_short(Layout::at(line, 1), &mut area, length))
}

// The number once more, of functions that are called alike and told alike: a closure in its place would be lent, with a clause.
fn movement(number: u64, records: &[u8], out: &mut [u8]) -> MovedOut {
    match number {
        41 => exports_to_short::lukaripe_records_to_short(records, out),
        _ => exports_from_short::lukaripe_records_from_short(records, out),
    }
}

// The records into the front of the area, which is looked at from this byte on.
fn moved_into(
    inputs: usize,
    number: u64,
    records: &[u8],
    area: &mut [u8],
    room: usize,
    at: usize,
) -> Told
    requires { (room ≤ length area.old) × (at ≤ 432) }
{
    let answer = movement(number, records, &mut area[..room]);
    moved_told(inputs, answer, area, at)
}

// As `rewritten` of replay_describe but for what is called: one function of both would be public, with a promise of what a
// closure writes.
fn moved(line: &[u64; WIDTH]) -> Option<Told> {
    let out_length = line[1] as usize;
    let from = line[2] as usize;
    if out_length > AREA {
        return None;
    }
    if from > LAST_SEEN {
        return None;
    }
    let lent = Lent::at(line, 3)?;
    let mut area = [165u8; AREA];
    Some(moved_into(
        lent.inputs,
        line[0],
        lent.bytes(),
        &mut area,
        out_length,
        from * 8,
    ))
}

fn made(line: &[u64; WIDTH]) -> Option<Told> {
    Some(match line[0] {
        15 => exports_layouts::lukaripe_new_zst(line[1]).told(1),
        16 => exports_layouts::lukaripe_for_type(line[1], line[2]).told(2),
        17 => exports_layouts::lukaripe_for_unpadded_type(line[1], line[2]).told(2),
        18 => exports_layouts::lukaripe_for_slice(line[1], line[2]).told(2),
        25 => exports_layouts::lukaripe_scalar(line[1]).told(1),
        38 => exports_working::lukaripe_working_begin(line[1]).told(1),
        _ => return None,
    })
}

fn listed(line: &[u64; WIDTH]) -> Option<Told> {
    match line[0] {
        23 => decode(line),
        24 => encode(line),
        26 | 27 | 34 => composed(line),
        35 => placed(line),
        36 => Some(worked(line)),
        37 => worked_by_record(line),
        39 => decode_short(line),
        40 => encode_short(line),
        41 | 42 => moved(line),
        _ => made(line),
    }
}

// What the function of the line tells. Its number is read from a file, so that a match on it is the plainest table of functions.
pub(crate) fn call(line: &[u64; WIDTH]) -> Option<Told> {
    Some(match line[0] {
        19 => exports_layouts::lukaripe_extend(
            Layout::at(line, 1),
            Layout::at(line, 7),
            line[13],
        ).told(13),
        20 => exports_layouts::lukaripe_pad_to_align(Layout::at(line, 1)).told(6),
        21 => exports_layouts::lukaripe_requires_static_padding(Layout::at(line, 1)).told(6),
        22 => exports_layouts::lukaripe_requires_dynamic_padding(Layout::at(line, 1)).told(6),
        _ => return listed(line),
    })
}
