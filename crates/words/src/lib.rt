// Little-endian words of lent bytes.
#![tactic(auto)]

ghost use Rattle.std.specs.Prelude.{◌≡◌, ◌+◌, ◌≤◌, ◌<◌, length};
ghost use Rattle.std.proofs.lemmas.List.Edits.{sets};
ghost use Rattle.words.specs.Bytes.{word_at, word_bytes, read_for, put_into};

// The bytes of a word.
pub const WORD_BYTES: usize = 8;

// The little-endian word at at.
fn load_word(s: &[u8], at: usize) -> u64
    requires { at + 8 ≤ length s.now }
    ensures { result ≡ word_at s.now at }
{
    u64::from_le_bytes([
        s[at],
        s[at + 1],
        s[at + 2],
        s[at + 3],
        s[at + 4],
        s[at + 5],
        s[at + 6],
        s[at + 7],
    ])
}

// The little-endian word at at, 0 where it is not among the bytes.
pub fn read_word(s: &[u8], at: usize) -> u64
    ensures { result ≡ read_for s.now at }
{
    if s.len() < WORD_BYTES {
        return 0;
    }
    if at > s.len() - WORD_BYTES {
        return 0;
    }
    load_word(s, at)
}

// Writes the little-endian word at at.
fn store_word(out: &mut [u8], at: usize, v: u64)
    requires { at + 8 ≤ length out.old }
    ensures { out.new ≡ sets out.old at (word_bytes v) }
{
    out[at..at + WORD_BYTES].copy_from_slice(&v.to_le_bytes());
}

// Writes the little-endian word at at; where it is not among the bytes they stay as they were.
pub fn put_word(out: &mut [u8], at: usize, v: u64)
    ensures { out.new ≡ put_into out.old at v }
{
    if out.len() < WORD_BYTES {
        return;
    }
    if at > out.len() - WORD_BYTES {
        return;
    }
    store_word(out, at, v)
}
