// The test bench: every list of up to six members under every packing (cases) is composed, and compared with the Reference's
// rule for repr(C), written out plainly. Beside it stands the rule without closing padding, which is wrong: a bench that misses
// a difference writes another count.
#![tactic(auto)]

use layout::{DstLayout, SizeInfo};
use record::Words;
use std::{fmt, io};
use util::RefusedAt;

const CASES: usize = 27305;

// As many codes has a case.
const CODES: usize = 6;

// A struct as the rule has it, and whether no padding was needed so far.
#[derive(Clone, Copy)]
struct Rule {
    align: u64,
    size: u64,
    unpadded: bool,
}

// How many cases there were, and how many differ from the rule, and from the wrong one.
#[derive(Clone, Copy)]
struct Tally {
    cases: u64,
    differ: u64,
    wrong: u64,
}

impl fmt::Display for Tally {
    fn fmt<W: fmt::Write>(&self, f: &mut fmt::Formatter<W>) -> fmt::Result {
        write!(
            f,
            "{} cases, {} differ from the rule; from the one without closing padding {}",
            self.cases, self.differ, self.wrong
        )
    }
}

// The bytes from v to the next multiple of an alignment of 1, 2, 4 or 8.
fn gap(v: u64, align: u64) -> u64 {
    match align {
        8 => (8 - v % 8) % 8,
        4 => (4 - v % 4) % 4,
        2 => v % 2,
        _ => 0,
    }
}

// The size of a scalar by its code, which is its alignment too.
fn scalar_size(code: u64) -> u64 {
    match code {
        3 => 8,
        2 => 4,
        1 => 2,
        _ => 1,
    }
}

// The alignment of a member: its own, or the packing where that is lower.
fn lowered(align: u64, packing: u64) -> u64 {
    if packing == 0 {
        align
    } else {
        align.min(packing)
    }
}

// With one member more; an unused code adds none.
fn with_member(r: Rule, code: u64, packing: u64) -> Rule {
    if code > 3 {
        return r;
    }
    let size = scalar_size(code);
    let align = lowered(size, packing);
    let padding = gap(r.size, align);
    let place = r.size.wrapping_add(padding);
    Rule {
        align: r.align.max(align),
        size: place.wrapping_add(size),
        unpadded: r.unpadded && padding == 0,
    }
}

// The six codes of a case, in turn: the lowest bytes of a number.
fn members(packing: u64, codes: u64) -> Rule {
    let mut rule = Rule {
        align: 1,
        size: 0,
        unpadded: true,
    };
    for code in &codes.to_le_bytes()[..CODES] {
        rule = with_member(rule, *code as u64, packing);
    }
    rule
}

// With closing padding.
fn closed(r: Rule) -> Rule {
    let padding = gap(r.size, r.align);
    Rule {
        align: r.align,
        size: r.size.wrapping_add(padding),
        unpadded: r.unpadded && padding == 0,
    }
}

// Whether a composed layout is the one of the rule.
fn is_rule(l: DstLayout<u64>, r: Rule) -> bool {
    let size_info = l.size_info;
    match size_info {
        SizeInfo::Sized { size } => {
            l.align == r.align
                && size == r.size
                && l.statically_shallow_unpadded == r.unpadded
                && !l.align_modifier
        }
        SizeInfo::SliceDst(_) => false,
    }
}

fn agrees(a: Result<DstLayout<u64>, RefusedAt<u64>>, r: Rule) -> bool {
    a.is_ok_and(|l| is_rule(l, r))
}

// Writes a record's words at a place of a list; past its end nothing is written. That of record is private.
fn put_words(list: &mut [u8], at: usize, w: Words) {
    words::put_word(list, at, w.align);
    words::put_word(list, at.wrapping_add(8), w.kind);
    words::put_word(list, at.wrapping_add(16), w.size);
    words::put_word(list, at.wrapping_add(24), w.offset);
    words::put_word(list, at.wrapping_add(32), w.elem_size);
    words::put_word(list, at.wrapping_add(40), w.word);
}

// Writes the record of a scalar; an unused code writes none.
fn put_member(list: &mut [u8], at: usize, code: u64) {
    if let Ok(l) = scalar::scalar(code) {
        put_words(list, at, record::words_from_layout(l));
    }
}

fn put_members(list: &mut [u8], codes: u64) {
    for (i, code) in codes.to_le_bytes()[..CODES].iter().enumerate() {
        put_member(list, i * record::RECORD_BYTES, *code as u64);
    }
}

// The bytes of so many records.
fn records_bytes(length: u64) -> usize {
    if length > cases::GREATEST_LENGTH {
        return 0;
    }
    length as usize * record::RECORD_BYTES
}

// The composition of the first members of a list.
fn composed(length: u64, packing: u64, list: &[u8]) -> Result<DstLayout<u64>, RefusedAt<u64>> {
    let end = records_bytes(length);
    if list.len() < end {
        return compose::for_repr_c_struct(0, packing, list);
    }
    compose::for_repr_c_struct(0, packing, &list[..end])
}

// The record of a case: its length, its packing and its codes.
fn compose_case(case: u64) -> Result<DstLayout<u64>, RefusedAt<u64>> {
    let mut list = [0u8; CODES * record::RECORD_BYTES];
    put_members(&mut list, case / 0x1_0000);
    composed(case % 256, case / 256 % 256, &list)
}

fn one_more_unless(count: u64, agreed: bool) -> u64 {
    if agreed { count } else { count.wrapping_add(1) }
}

fn with_case(t: Tally, case: u64) -> Tally {
    let answer = compose_case(case);
    let open = members(case / 256 % 256, case / 0x1_0000);
    Tally {
        cases: t.cases.wrapping_add(1),
        differ: one_more_unless(t.differ, agrees(answer, closed(open))),
        wrong: one_more_unless(t.wrong, agrees(answer, open)),
    }
}

fn tally_of(buffer: &[u8]) -> Tally {
    let mut t = Tally {
        cases: 0,
        differ: 0,
        wrong: 0,
    };
    for case in buffer.chunks_exact(words::WORD_BYTES).take(CASES) {
        t = with_case(t, words::read_word(case, 0));
    }
    t
}

fn main(rt: HostRuntime) -> io::Result<()> {
    let mut buffer = [0u8; 218440];
    let bytes = cases::write_cases(6, &mut buffer).unwrap_or_else(|refusal| refusal.number());
    println!(rt; "{bytes} bytes, {}", tally_of(&buffer))
}
