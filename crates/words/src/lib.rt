// Words of 8 bytes, little-endian.
#![tactic(auto)]

ghost use Rattle.std.specs.Prelude.{◌≡◌, ◌+◌, ◌≤◌, length};
ghost use Rattle.words.specs.Words.{bytes_of, word_at, put_word};

// The word at byte at.
pub fn word_at(s: &[u8], at: usize) -> u64
    requires { at + 8 ≤ length s.now }
    ensures { result ≡ word_at s.now at }
{
    u64::from_le_bytes(s[at..at + 8].try_into().unwrap())
}

// Lays the 8 bytes of v over b. The compiler makes one store of this loop; `copy_from_slice` asked in each turn of a caller's loop whether the two overlap.
fn put_bytes(b: &mut [u8], v: u64)
    requires { length b.old ≡ 8 }
    ensures { b.new ≡ bytes_of 8 v }
{
    let bytes = v.to_le_bytes();
    for i in 0..8 {
        b[i] = bytes[i];
    }
}

// Puts v at byte at.
pub fn put_word(s: &mut [u8], at: usize, v: u64)
    requires { at + 8 ≤ length s.old }
    ensures { s.new ≡ put_word s.old at v }
{
    put_bytes(&mut s[at..at + 8], v);
}
