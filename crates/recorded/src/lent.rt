// Bytes that a line lends, in an array of fixed length, since nothing here has a heap.
ghost use Rattle.std.specs.Prelude.{◌≤◌};
ghost use Rattle.std.specs.Coded.{le_prop};

use crate::BYTES;

#[derive(Clone, Copy)]
pub struct Lent {
    pub(crate) room: [u8; BYTES],
    pub(crate) length: usize,
    // How many numbers of the line there are up to the last of theirs, but for the function's.
    pub inputs: usize,
    pub(crate) ghost within: { length ≤ 384 } by { le_prop },
}
