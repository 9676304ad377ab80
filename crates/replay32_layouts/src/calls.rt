// A function for each recorded function at 32 bits: it takes the inputs from the line and tells the answer as a line has it.
// The number of a function and the order of its inputs are those of rust/differential/recorded.rs and its rows; so is the way
// bytes stand in a line, their length and then words.
// The exports have a name at each width, and so have the functions here that call them.
ghost use Rattle.std.specs.Prelude.{◌≤◌, length};

use exports32_layouts::{Layout32, LayoutOut32};
use exports32_lists::ComposedOut32;
use numbers32::low_word;
use recorded::{BYTES, Lent, Told, WIDTH};
use told::{FromLine, SLICE, Tells, chosen, short_told};

// A short record is written to the front of these bytes, which are 165 before. No line agrees with a longer output.
const AREA: usize = 512;

fn decode(line: &[u64; WIDTH]) -> Option<Told> {
    let lent = Lent::at(line, 1)?;
    let answer = exports32_records::lukaripe32_decode(lent.bytes());
    Some(answer.told(lent.inputs))
}

// What is read back from the bytes that were written. On a refusal they are still those that were lent, which read as no record.
fn encoded(l: Layout32, out: &mut [u8]) -> LayoutOut32 {
    let refusal = exports32_records::lukaripe32_encode(l, out);
    let read = exports32_records::lukaripe32_decode(out);
    let layout = read.layout;
    if refusal == 0 {
        return read;
    }
    LayoutOut32 { refusal, layout }
}

fn encode(line: &[u64; WIDTH]) -> Option<Told> {
    let length = line[7] as usize;
    if length > BYTES {
        return None;
    }
    let mut bytes = [0u8; BYTES];
    let answer = encoded(Layout32::at(line, 1), &mut bytes[..length]);
    Some(answer.told(7))
}

// The number once more, of functions that are called alike and told alike: a closure in its place would be lent, with a clause.
fn composition(number: u64, align: u64, packed: u64, members: &[u8]) -> ComposedOut32 {
    let repr_align = low_word(align);
    let repr_packed = low_word(packed);
    match number {
        26 => exports32_lists::lukaripe32_compose(repr_align, repr_packed, members),
        27 => exports32_lists::lukaripe32_for_repr_c_struct(repr_align, repr_packed, members),
        _ => exports32_lists::lukaripe32_for_repr_c_struct_strict(repr_align, repr_packed, members),
    }
}

// Not shared with the other width: what it calls calls exports that have a name at each.
fn composed(line: &[u64; WIDTH]) -> Option<Told> {
    let lent = Lent::at(line, 3)?;
    let answer = composition(line[0], line[1], line[2], lent.bytes());
    Some(answer.told(lent.inputs))
}

fn tell_placed(inputs: usize, a: ComposedOut32, place: u32, gap: u32) -> Told {
    let l = a.layout;
    Told::new(
        inputs,
        &[
            a.refusal,
            a.place,
            l.align as u64,
            l.kind as u64,
            l.size_base as u64,
            l.offset as u64,
            l.elem_size as u64,
            l.word as u64,
            place as u64,
            gap as u64,
        ],
    )
}

fn compose_with_places(
    align: u64,
    packed: u64,
    members: &[u8],
    places: &mut [u32],
    gaps: &mut [u32],
) -> ComposedOut32 {
    let repr_align = low_word(align);
    let repr_packed = low_word(packed);
    exports32_lists::lukaripe32_for_repr_c_struct_places(
        repr_align,
        repr_packed,
        members,
        places,
        gaps,
    )
}

// The place of one member and the gap before it, of members that are fewer than the slices can hold. On a refusal they are
// still the zeros that were lent.
fn placed(line: &[u64; WIDTH]) -> Option<Told> {
    let places_length = line[3] as usize;
    let gaps_length = line[4] as usize;
    if places_length > SLICE {
        return None;
    }
    if gaps_length > SLICE {
        return None;
    }
    let lent = Lent::at(line, 6)?;
    let mut places = [0u32; SLICE];
    let mut gaps = [0u32; SLICE];
    let answer = compose_with_places(
        line[1],
        line[2],
        lent.bytes(),
        &mut places[..places_length],
        &mut gaps[..gaps_length],
    );
    let at = chosen(line[5], lent.bytes().len() / 48);
    Some(tell_placed(lent.inputs, answer, places[at], gaps[at]))
}

// The words of the working layout after an addition, on a refusal those that were lent.
fn worked(line: &[u64; WIDTH]) -> Told {
    let mut layout = Layout32::at(line, 1);
    let field = Layout32::at(line, 7);
    let refusal = exports32_working::lukaripe32_working_add(&mut layout, field, low_word(line[13]));
    LayoutOut32 { refusal, layout }.told(13)
}

fn worked_by_record(line: &[u64; WIDTH]) -> Option<Told> {
    let record = Lent::at(line, 8)?;
    let mut layout = Layout32::at(line, 1);
    let packed = low_word(line[7]);
    let refusal = exports32_working_record::lukaripe32_working_add_record(
        &mut layout,
        record.bytes(),
        packed,
    );
    Some(LayoutOut32 { refusal, layout }.told(record.inputs))
}

fn decode_short(line: &[u64; WIDTH]) -> Option<Told> {
    let lent = Lent::at(line, 1)?;
    let answer = exports32_records::lukaripe32_decode_short(lent.bytes());
    Some(answer.told(lent.inputs))
}

// The short record into the front of the area.
fn encoded_short(l: Layout32, area: &mut [u8], room: usize) -> Told
    requires { room ≤ length area.old }
{
    let refusal = exports32_records::lukaripe32_encode_short(l, &mut area[..room]);
    short_told(7, refusal, area)
}

fn encode_short(line: &[u64; WIDTH]) -> Option<Told> {
    let length = line[7] as usize;
    if length > AREA {
        return None;
    }
    let mut area = [165u8; AREA];
    Some(encoded_short(Layout32::at(line, 1), &mut area, length))
}

fn made(line: &[u64; WIDTH]) -> Option<Told> {
    Some(match line[0] {
        15 => exports32_layouts::lukaripe32_new_zst(low_word(line[1])).told(1),
        16 => exports32_layouts::lukaripe32_for_type(low_word(line[1]), low_word(line[2])).told(2),
        17 => exports32_layouts::lukaripe32_for_unpadded_type(
            low_word(line[1]),
            low_word(line[2]),
        ).told(2),
        18 => exports32_layouts::lukaripe32_for_slice(low_word(line[1]), low_word(line[2])).told(2),
        25 => exports32_layouts::lukaripe32_scalar(low_word(line[1])).told(1),
        38 => exports32_working::lukaripe32_working_begin(low_word(line[1])).told(1),
        _ => return None,
    })
}

fn listed(line: &[u64; WIDTH]) -> Option<Told> {
    match line[0] {
        23 => decode(line),
        24 => encode(line),
        26 | 27 | 34 => composed(line),
        35 => placed(line),
        36 => Some(worked(line)),
        37 => worked_by_record(line),
        39 => decode_short(line),
        40 => encode_short(line),
        _ => made(line),
    }
}

// What the function of the line tells. Its number is read from a file, so that a match on it is the plainest table of functions.
pub(crate) fn call(line: &[u64; WIDTH]) -> Option<Told> {
    Some(match line[0] {
        19 => exports32_layouts::lukaripe32_extend(
            Layout32::at(line, 1),
            Layout32::at(line, 7),
            low_word(line[13]),
        )
        .told(13),
        20 => exports32_layouts::lukaripe32_pad_to_align(Layout32::at(line, 1)).told(6),
        21 => exports32_layouts::lukaripe32_requires_static_padding(Layout32::at(line, 1)).told(6),
        22 => exports32_layouts::lukaripe32_requires_dynamic_padding(Layout32::at(line, 1)).told(6),
        _ => return listed(line),
    })
}
