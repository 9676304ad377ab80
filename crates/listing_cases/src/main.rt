// Prints the line of each list of data/: the scope's own cases, and the edges of the listing, at both widths.
#![tactic(auto)]

use listing_line::Listed;
use std::io::Write;
use std::rt::Files;
use std::{fs, io};

// The greatest list that is taken, and the room of a line.
const LIST_BYTES: usize = 65536;

const LINE_BYTES: usize = 4096;

// The name of a list and its line at a width.
fn list<W: Listed, R: Files + Print + Eprint>(rt: &R, name: &str) -> io::Result<()> {
    let mut file = match fs::open(rt, name) {
        Ok(file) => file,
        Err(error) => {
            return eprintln!(rt; "{name}: {error}");
        }
    };
    let mut list = [0u8; LIST_BYTES];
    let n = reading::read_full(&mut file, &mut list)?;
    let mut text = [0u8; LINE_BYTES];
    let len = listing_line::line::<W>(&list[..n], &mut text);
    print!(rt; "{name}: ")?;
    io::writer(rt).write_all(&text[..len])
}

// Every list at a width.
fn lists<W: Listed, R: Files + Print + Eprint>(rt: &R) -> io::Result<()> {
    for name in [
        "example",
        "empty",
        "after",
        "uneven",
        "longest",
        "too_long",
        "sum",
        "padding",
        "modifier",
        "modifier_run",
        "kind_8",
        "sum_at_32",
        "passes_width",
        "align_2_40",
        "align_3_2_40",
    ] {
        list::<W, _>(rt, name)?;
    }
    Ok(())
}

fn main(rt: HostRuntime) -> io::Result<()> {
    lists::<u64, _>(&rt)?;
    print!(rt; "\nat 32 bits\n")?;
    lists::<u32, _>(&rt)
}
