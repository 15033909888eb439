// The frames that spares and pages name (row 7).
#![tactic(auto)]

ghost use Rattle.std.specs.Prelude.{◌≡◌, true, ◌≤◌, length, get_or};
ghost use Rattle.bounded.specs.Tab.{tab};
ghost use Rattle.bounded.specs.Count.{each_once};
ghost use Rattle.layout.specs.Layout.{Legal, image_length, frames};
ghost use Rattle.words.specs.Words.{word};
ghost use Rattle.replay.specs.Table.{pages_apart, home_of, frame_names, table_ok};
ghost use Rattle.replay.specs.Map.{page_frames};
ghost use Rattle.names.specs.Homes.{originals_put};

use layout::Sizes;
use replay::Table;

// Puts the spare of each slot, in the order of the slots.
fn put_spares(names: &mut [u64], z: Sizes, spare: &[usize; 16])
    requires { Legal z × (length names.old ≡ z.slots) }
    ensures { names.new ≡ tab z.slots (λ s. get_or spare.now s 0) }
{
    for s in 0..z.slots {
        names[s] = spare[s] as u64;
    }
}

// Puts the page-table words.
fn put_words(homes: &mut [u64], image: &[u8], z: Sizes)
    requires { Legal z × (image_length z ≤ length image.now) × (length homes.old ≡ z.pages) }
    ensures { homes.new ≡ tab z.pages (page_frames (word image.now)) }
{
    for p in 0..z.pages {
        homes[p] = image_words::read_word(image, layout::page_word(p));
    }
}

// Puts each slot's original at its page.
fn put_originals<'a>(homes: &mut [u64], z: Sizes, page: &'a [usize; 16], original: &'a [usize; 16])
    requires { Legal z × (length homes.old ≡ z.pages) }
    ensures { homes.new ≡ originals_put z page.now original.now z.slots homes.old }
{
    for s in 0..z.slots {
        let p = page[s];
        if p < z.pages {
            homes[p] = original[s] as u64;
        }
    }
}

// Puts each page's home: its slot's original where it has one, else its page-table word.
pub fn put_homes(homes: &mut [u64], image: &[u8], z: Sizes, t: Table)
    requires { Legal z × (image_length z ≤ length image.now) × (length homes.old ≡ z.pages) × (pages_apart z t.page ≡ true) }
    ensures { homes.new ≡ tab z.pages (home_of (page_frames (word image.now)) z t) }
{
    put_words(homes, image, z);
    put_originals(homes, z, &t.page, &t.original);
}

// Puts both, and says whether they name each frame once.
fn put_both(spares: &mut [u64], homes: &mut [u64], image: &[u8], z: Sizes, t: Table) -> bool
    requires { Legal z × (image_length z ≤ length image.now) × (length spares.old ≡ z.slots) × (length homes.old ≡ z.pages)
        × (pages_apart z t.page ≡ true) }
    ensures { result ≡ each_once (frames z) (frame_names (page_frames (word image.now)) z t) }
{
    put_spares(spares, z, &t.spare);
    put_homes(homes, image, z, t);
    naming::each_once(spares, homes)
}

// Whether the spares and the homes name each frame once.
fn names_once(image: &[u8], z: Sizes, t: Table) -> bool
    requires { Legal z × (image_length z ≤ length image.now) × (pages_apart z t.page ≡ true) }
    ensures { result ≡ each_once (frames z) (frame_names (page_frames (word image.now)) z t) }
{
    let mut spares = [0u64; 16];
    let mut homes = [0u64; 1024];
    put_both(&mut spares[..z.slots], &mut homes[..z.pages], image, z, t)
}

// Whether the slots after replay and the page table keep row 7.
pub fn table_ok(image: &[u8], z: Sizes, t: Table) -> bool
    requires { Legal z × (image_length z ≤ length image.now) }
    ensures { result ≡ table_ok (page_frames (word image.now)) z t }
{
    replay::slots_shaped(z, &t) && replay::pages_apart(z, &t.page) && names_once(image, z, t)
}
