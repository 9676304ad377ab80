// The bytes of a line's words, against bytes written out by hand.
use crate::{BYTES, WIDTH, bytes_from};

// A line of zeros but for its fourth number and its last one.
fn line() -> [u64; WIDTH] {
    let mut line = [0; WIDTH];
    line[3] = 0x0807_0605_0403_0201;
    line[63] = 0xff;
    line
}

#[test]
fn words_of_the_line(rt: HostRuntime) {
    let mut want = [0u8; BYTES];
    want[..8].copy_from_slice(&[1, 2, 3, 4, 5, 6, 7, 8]);
    assert_eq!(rt; bytes_from(&line(), 3), want);
    let mut last = [0u8; BYTES];
    last[376] = 255;
    assert_eq!(rt; bytes_from(&line(), 16), last);
}

#[test]
fn words_behind_the_line(rt: HostRuntime) {
    let mut want = [0u8; BYTES];
    want[0] = 255;
    assert_eq!(rt; bytes_from(&line(), 63), want);
    assert_eq!(rt; bytes_from(&line(), 64), [0; BYTES]);
    assert_eq!(rt; bytes_from(&line(), usize::MAX), [0; BYTES]);
}
