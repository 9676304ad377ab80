// Reads a member list from standard input and prints the line of what it composes to.
#![tactic(auto)]

use std::io;
use std::io::Write;

// The greatest input that is taken, and the room of a line.
const INPUT_BYTES: usize = 65536;

const LINE_BYTES: usize = 4096;

// Where the input or the output fails, a line on standard error says so, and no layout is printed.
// The programs of the two widths have one text but for that and the width: a function of both would be public, with nothing to
// promise.
fn main(rt: HostRuntime) -> io::Result<()> {
    let mut list = [0u8; INPUT_BYTES];
    let n = match reading::read_full(&mut rt.stdin(), &mut list) {
        Ok(n) => n,
        Err(error) => {
            return eprintln!(rt; "listing: standard input: {error}");
        }
    };
    let mut text = [0u8; LINE_BYTES];
    let len = listing_line::line::<u64>(&list[..n], &mut text);
    if let Err(error) = rt.stdout().write_all(&text[..len]) {
        return eprintln!(rt; "listing: standard output: {error}");
    }
    Ok(())
}
