// Whether numbers name each number below a bound once: the frames that spares and pages name, of rows 7 and 8. As many numbers as the bound says name each
// once if and only if they leave none out.
#![tactic(auto)]

ghost use Rattle.std.specs.Prelude.{◌≡◌, ◌++◌, ◌+◌, ◌-◌, ◌^◌, ◌<◌, ◌≤◌, eqb, ltb, length, get_or, false, ◌||◌};
ghost use Rattle.bounded.specs.Below.{all_below};
ghost use Rattle.bounded.specs.Count.{each_once};
ghost use Rattle.naming.specs.Marks.{MaskOf, marked, told, MarkedBut};

// How many homes are a run.
const RUN: usize = 64;

// Which of the first 64 numbers are named; none where a name is not one of them. No turn has a branch.
fn mask_of(names: &[u64]) -> u64
    ensures { MaskOf names.now result }
{
    let mut m = 0;
    let mut all = 0;
    for name in names {
        m |= 1 << (name % 64);
        all |= name;
    }
    if 64 <= all {
        return 0;
    }
    m
}

// The mask of the first n numbers.
fn first_ones(n: usize) -> u64
    requires { n ≤ 64 }
    ensures { result ≡ 2 ^ n - 1 }
{
    if n == 64 {
        return u64::MAX;
    }
    (1 << n) - 1
}

// Whether each name from a place up to another is the number of its place. No turn has a branch, so that the compiler takes several at a time.
fn own_from(names: &[u64], from: usize, end: usize) -> bool
    requires { (from ≤ end) × (end ≤ length names.now) }
    ensures { result ≡ all_below end (λ i. ltb i from || eqb (get_or names.now i 0) i) }
{
    let mut differ = 0;
    for i in from..end {
        differ |= names[i] ^ i as u64;
    }
    differ == 0
}

// The same of all names.
pub fn all_own(names: &[u64]) -> bool
    ensures { result ≡ all_below (length names.now) (λ i. eqb (get_or names.now i 0) i) }
{
    own_from(names, 0, names.len())
}

// The same of a run that is not empty. Where its first has moved the others are not compared.
fn run_own(names: &[u64], from: usize, end: usize) -> bool
    requires { (from < end) × (end ≤ length names.now) }
    ensures { result ≡ all_below end (λ i. ltb i from || eqb (get_or names.now i 0) i) }
{
    if names[from] != from as u64 {
        return false;
    }
    own_from(names, from, end)
}

// Marks each name; the last mark is that of all names from 1,040 on.
fn mark(seen: &mut [bool; 1041], names: &[u64])
    ensures { seen.new ≡ marked names.now seen.old }
{
    for name in names {
        seen[(*name as usize).min(1040)] = true;
    }
}

// Marks the homes of each run that is not own, and tells which runs are.
fn mark_moved(seen: &mut [bool; 1041], homes: &[u64]) -> u64
    requires { (length seen.old ≡ 1041) × (length homes.now ≤ 1024) }
    ensures { MarkedBut homes.now (length homes.now) seen.old result seen.new }
{
    let mut own = 0;
    for k in 0..homes.len().div_ceil(RUN) {
        let from = RUN * k;
        let end = (from + RUN).min(homes.len());
        if run_own(homes, from, end) {
            own = masks::with(own, k);
        } else {
            mark(seen, &homes[from..end]);
        }
    }
    own
}

// Whether the numbers from one up to another are marked.
fn marked_from(seen: &[bool; 1041], from: usize, end: usize) -> bool
    requires { (from ≤ end) × (end ≤ 1040) }
    ensures { result ≡ all_below end (λ x. ltb x from || get_or seen.now x false) }
{
    let mut all = true;
    for i in from..end {
        all &= seen[i];
    }
    all
}

// Whether the first n numbers are marked, but those below p whose run is own.
fn all_told(seen: &[bool; 1041], own: u64, p: usize, n: usize) -> bool
    requires { (p ≤ n) × ((p ≤ 1024) × (n ≤ 1040)) }
    ensures { result ≡ all_below n (told p own seen.now) }
{
    let mut all = true;
    for k in 0..p.div_ceil(RUN) {
        let from = RUN * k;
        if !masks::has(own, k) {
            all &= marked_from(seen, from, (from + RUN).min(p));
        }
    }
    all & marked_from(seen, p, n)
}

// Whether names and homes name each number once that is below their count. Up to 64 numbers one mask tells. Of more, a run of homes that are the numbers of
// their places names just these: it is neither marked nor looked at again; all other names are marked, and the numbers that are left must be.
pub fn each_once<'a>(names: &'a [u64], homes: &'a [u64]) -> bool
    requires { (length names.now ≤ 16) × (length homes.now ≤ 1024) }
    ensures { result ≡ each_once (length names.now + length homes.now) (names.now ++ homes.now) }
{
    let n = names.len() + homes.len();
    if n <= 64 {
        let m = mask_of(names);
        return m | mask_of(homes) == first_ones(n);
    }
    let mut seen = [false; 1041];
    mark(&mut seen, names);
    let own = mark_moved(&mut seen, homes);
    all_told(&seen, own, homes.len(), n)
}
