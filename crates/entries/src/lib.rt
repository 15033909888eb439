// The entries of a wide transaction: their keys, and whether they are right.
#![tactic(auto)]

ghost use Rattle.std.specs.Prelude.{◌≡◌, ◌<◌, ◌≤◌, ◌==◌, length, position, take};
ghost use Rattle.layout.specs.Layout.{Legal, image_length};
ghost use Rattle.words.specs.Words.{word};
ghost use Rattle.entries.specs.Entries.{keys_from, entry_of, key_right, entries_ok};

use layout::Sizes;

// The first of n entries with this key.
fn entry_with(keys: &[u64; 64], n: usize, key: u64) -> Option<usize>
    requires { n ≤ 64 }
    ensures { result ≡ position (λ k. k == key) (take n keys.now) }
{
    keys[..n].iter().position(|k| *k == key)
}

// The same, or n where there is none.
pub fn find_entry(keys: &[u64; 64], n: usize, key: u64) -> usize
    requires { n ≤ 64 }
    ensures { result ≡ entry_of keys.now n key }
{
    entry_with(keys, n, key).unwrap_or(n)
}

// Whether entry e is one of a page, and of a line that no entry before it has.
fn key_right(z: Sizes, keys: &[u64; 64], e: usize) -> bool
    requires { e < 64 }
    ensures { result ≡ key_right z keys.now e }
{
    let key = keys[e];
    let first = find_entry(keys, e, key);
    let page = (key / 64) as usize;
    (page < z.pages) & (first == e)
}

// Whether n entries with these keys are at most L, and each is right.
pub fn entries_ok(z: Sizes, keys: &[u64; 64], n: usize) -> bool
    requires { Legal z }
    ensures { result ≡ entries_ok z keys.now n }
{
    if z.entries < n {
        return false;
    }
    for e in 0..n {
        if !key_right(z, keys, e) {
            return false;
        }
    }
    true
}

// The keys of the first n entries of an image, as far as there are so many.
pub fn read_keys(image: &[u8], z: Sizes, n: usize) -> [u64; 64]
    requires { Legal z × (image_length z ≤ length image.now) }
    ensures { result ≡ keys_from (word image.now) z n }
{
    let end = n.min(z.entries);
    let mut keys = [0u64; 64];
    for e in 0..end {
        keys[e] = image_words::read_word(image, layout::entry_word(z, e));
    }
    keys
}
