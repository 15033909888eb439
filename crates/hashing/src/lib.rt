// A hash of bytes, by which the test programs print an image or a page in a number.
#![tactic(auto)]

ghost use Rattle.std.specs.Prelude.{◌≡◌};
ghost use Rattle.hashing.specs.Hash.{hash_of};

// h starts 0, h := (31 h + byte) mod 4,294,967,291.
pub fn hash(bytes: &[u8]) -> u64
    ensures { result ≡ hash_of bytes.now }
{
    let mut h: u64 = 0;
    for byte in bytes {
        h = (31 * h + u64::from(*byte)) % 4294967291;
    }
    h
}
