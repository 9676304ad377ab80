// Replays recorded answers at 32 bits of the functions of casts and conversions.
#![tactic(auto)]

mod calls;

use calls::call;
use std::io;

// The lines of `wrong` are wrong on purpose, in one number or in shape: a replay that misses one writes another count.
// A program has a `main` of its own: but for its files it is `recorded::replay_file`.
fn main(rt: HostRuntime) -> io::Result<()> {
    for name in ["answers", "full", "wrong"] {
        let tally = recorded::replay_file(&rt, name, call)?;
        println!(rt; "{name}: {tally}")?;
    }
    Ok(())
}
