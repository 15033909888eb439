// How many stores each operation needs.
#![tactic(auto)]

ghost use Rattle.std.specs.Prelude.{◌≡◌, ◌≤◌};
ghost use Rattle.layout.specs.Layout.{Legal};
ghost use Rattle.operations.specs.Operations.{commit_needs, prepare_needs, confirm_needs, copy_needs, copy_count, consolidate_needs, format_needs};

use layout::Sizes;

// The stores that a commit of n slots needs.
pub fn commit_needs(n: usize) -> usize
    requires { n ≤ 16 }
    ensures { result ≡ commit_needs n }
{
    if n == 0 { 0 } else { 4 * n + 1 }
}

// Those of a prepare, and of a confirm, of n slots.
pub fn prepare_needs(n: usize) -> usize
    requires { n ≤ 16 }
    ensures { result ≡ prepare_needs n }
{
    4 * n
}

pub fn confirm_needs(n: usize) -> usize
    ensures { result ≡ confirm_needs n }
{
    if n == 0 { 0 } else { 1 }
}

// Those of a wide commit of n entries.
pub fn copy_needs(n: usize) -> usize
    requires { n ≤ 64 }
    ensures { result ≡ copy_needs n }
{
    if n == 0 { 0 } else { 8 * n + 2 }
}

// How many lines a consolidation copies: those in the spare where they are at most 32, else the others.
pub fn copy_count(bitmap: u64) -> usize
    ensures { result ≡ copy_count bitmap }
{
    let k = masks::count(bitmap);
    if k <= 32 { k } else { 64 - k }
}

// The stores that the consolidation of a slot with this bitmap needs.
pub fn consolidate_needs(bitmap: u64) -> usize
    ensures { result ≡ consolidate_needs bitmap }
{
    8 * copy_count(bitmap) + 6
}

// The stores that a format needs.
pub fn format_needs(z: Sizes) -> usize
    requires { Legal z }
    ensures { result ≡ format_needs z }
{
    layout::entry_word(z, z.entries) + 1
}
