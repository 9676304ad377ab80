// The functions' own 1 and 2. Across the C boundary a layout is tested before the function that takes it is called, so these are
// called here directly, with an alignment of 0, one of 3, a rounding word of 0, and, where there are two layouts, with a bad
// second one and with two bad ones.
#![tactic(auto)]

use cast::{CastType, Granted};
use convert::CastParamsInner;
use layout::{DstLayout, SizeInfo};
use rounding::RoundingAlignAndPhase;
use shift::Mode;
use std::io;
use trailing::TrailingSliceLayout;
use util::Refusal;

fn fixed(align: u64) -> DstLayout<u64> {
    DstLayout {
        align,
        size_info: SizeInfo::Sized { size: 8 },
        statically_shallow_unpadded: true,
        align_modifier: false,
    }
}

fn trailing(word: u64) -> DstLayout<u64> {
    DstLayout {
        align: 4,
        size_info: SizeInfo::SliceDst(TrailingSliceLayout {
            offset: 9,
            elem_size: 1,
            size_base: 8,
            size_rounding_align_and_phase: RoundingAlignAndPhase(word),
        }),
        statically_shallow_unpadded: true,
        align_modifier: false,
    }
}

// The number of a refusal, 0 where there is none. Of any answer, and without the exports, which have the like.
fn refused<T: Copy>(a: Result<T, Refusal>) -> u64 {
    a.err().map_or(0, Refusal::number)
}

fn encoded(l: DstLayout<u64>) -> u64 {
    let mut out = [0u8; record::RECORD_BYTES];
    refused(record::encode(l, &mut out))
}

fn cast(l: DstLayout<u64>) -> u64 {
    refused(cast::validate_cast_and_convert_metadata(l, 0, 16, CastType::Prefix))
}

// A name, and what each of some calls is refused by: of one layout, a good one and then the bad ones; of a second one, the bad
// ones beside a good first one, and two bad ones.
fn print_refusals(rt: &impl Print, name: &str, refusals: &[u64]) -> io::Result<()> {
    print!(rt; "{name}")?;
    for refusal in refusals {
        print!(rt; " {refusal}")?;
    }
    println!(rt)
}

// The same of a call of one layout: of a good one, then of the bad ones.
fn print_of_each<P: Print, F: Fn(DstLayout<u64>) -> u64>(
    rt: &P,
    name: &str,
    call: F,
) -> io::Result<()>
    requires { F.IsAlwaysCallable call }
{
    print_refusals(
        rt,
        name,
        &[
            call(trailing(5)),
            call(fixed(0)),
            call(fixed(3)),
            call(trailing(0)),
        ],
    )
}

fn extended(l: DstLayout<u64>, field: DstLayout<u64>) -> u64 {
    refused(extend::extend(l, field, 0))
}

fn added(l: DstLayout<u64>, field: DstLayout<u64>) -> u64 {
    refused(working::with_member(l, field, 0))
}

// No record: 20, where the working layout is good.
fn added_record(l: DstLayout<u64>) -> u64 {
    let bytes = [0u8; 1];
    refused(working::with_record(l, &bytes, 0))
}

fn computed(src: DstLayout<u64>, dst: DstLayout<u64>) -> u64 {
    refused(convert::try_compute(src, dst, Mode::Ported))
}

fn print_layouts(rt: &impl Print) -> io::Result<()> {
    print_refusals(
        rt,
        "extend",
        &[
            extended(fixed(4), trailing(5)),
            extended(fixed(0), trailing(5)),
            extended(fixed(3), trailing(5)),
            extended(trailing(0), fixed(4)),
        ],
    )?;
    print_refusals(
        rt,
        " second",
        &[
            extended(fixed(4), fixed(0)),
            extended(fixed(4), trailing(0)),
            extended(trailing(0), fixed(0)),
            extended(fixed(0), trailing(0)),
        ],
    )?;
    print_of_each(rt, "pad_to_align", |l| refused(padding::pad_to_align(l)))?;
    print_of_each(
        rt,
        "requires_static_padding",
        |l| refused(needs::requires_static_padding(l)),
    )?;
    print_of_each(
        rt,
        "requires_dynamic_padding",
        |l| refused(needs::requires_dynamic_padding(l)),
    )?;
    print_of_each(rt, "encode", encoded)
}

fn print_additions(rt: &impl Print) -> io::Result<()> {
    print_refusals(
        rt,
        "with_member",
        &[
            added(fixed(4), trailing(5)),
            added(fixed(0), trailing(5)),
            added(fixed(3), trailing(5)),
            added(trailing(0), fixed(4)),
        ],
    )?;
    print_refusals(
        rt,
        " second",
        &[
            added(fixed(4), fixed(0)),
            added(fixed(4), trailing(0)),
            added(trailing(0), fixed(0)),
            added(fixed(0), trailing(0)),
        ],
    )?;
    print_refusals(
        rt,
        "with_record",
        &[
            added_record(fixed(4)),
            added_record(fixed(0)),
            added_record(fixed(3)),
            added_record(trailing(0)),
        ],
    )
}

fn print_converts(rt: &impl Print) -> io::Result<()> {
    print_of_each(rt, "validate_cast_and_convert_metadata", cast)?;
    print_of_each(
        rt,
        "metadata_for_exact_size",
        |l| refused(cast::metadata_for_exact_size(l, 12)),
    )?;
    print_of_each(rt, "try_compute", |l| computed(l, trailing(5)))?;
    print_refusals(
        rt,
        " second",
        &[
            computed(trailing(5), fixed(0)),
            computed(trailing(5), trailing(0)),
            computed(trailing(0), fixed(0)),
            computed(fixed(0), trailing(0)),
        ],
    )
}

fn main(rt: HostRuntime) -> io::Result<()> {
    print_layouts(&rt)?;
    print_additions(&rt)?;
    print_converts(&rt)
}
