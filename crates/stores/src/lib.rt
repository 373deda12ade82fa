//! The stores that the lists of document 01 are made of: words upward, a copy inside the flash, a
//! page's metadata, a header to its bare length; and the list of a format. Promises are the lists of
//! `rules`, run under power.
//!
//! Every function here is proved. Those of a page take an area that is held. The others take any run,
//! which is why the power goes through them by value, and ask that their places can be counted.
#![tactic(auto)]

ghost use Rattle.std.specs.Prelude.{[], ◌∷◌, ◌⊎◌, ◌≡◌, ◌+◌, ◌≤◌, ◌<◌, length, take, drop};
ghost use Rattle.flash.specs.Stores.{put, puts, each, Ran};
ghost use Rattle.rules.specs.Words.{meta1};
ghost use Rattle.rules.specs.Areas.{base};
ghost use Rattle.rules.specs.Lists.{erase, format_page, format_list};
ghost use Rattle.area.specs.Holding.{Runs};
ghost use Rattle.stores.specs.Making.{data_words, bare_found, metadata};

use area::Held;
use flash::Power;
use rules::{Area, Found, META0, SEAL};

// The place of a page's first word in the run; the page behind the last one is R.
pub fn base(area: Area, index: usize) -> usize
    requires { (area.words ≤ 1024) × (index ≤ 255) }
    ensures { (result ≡ base area index) × (result ≤ 261120) }
{
    index * area.words
}

// Word 1 of the page with an index in an area of so many pages.
fn meta1(pages: usize, index: usize) -> u32
    requires { (pages ≤ 255) × (index ≤ 255) }
    ensures { result ≡ meta1 pages index }
{
    0xFFFF_0000 + 256 * (index as u32) + (pages as u32)
}

// The header of an entry with so many data words, at a place, to its bare length.
pub fn bare(flash: &mut [u32], place: usize, words: usize, power: Power) -> Power
    requires { words ≤ 262144 }
    ensures { Ran (put place (words + 1) ∷ []) power flash.old result flash.new }
{
    flash::store(flash, place, (words + 1) as u32, power)
}

// The header of the entry found to its bare length; nothing, if none was found.
pub fn bare_found(flash: &mut [u32], found: Option<Found>, power: Power) -> Power
    requires { data_words found ≤ 262144 }
    ensures { Ran (bare_found found) power flash.old result flash.new }
{
    match found {
        Some(entry) => bare(flash, entry.place, entry.words, power),
        None => power,
    }
}

// Words upward from a place.
pub fn put_words(flash: &mut [u32], at: usize, words: &[u32], power: Power) -> Power
    requires { at ≤ 262144 }
    ensures { Ran (puts at words.now) power flash.old result flash.new }
{
    let mut p = power;
    for (i, &word) in words.iter().enumerate() {
        p = flash::store(flash, at + i, word, p);
    }
    p
}

// So many words from one place of the flash, stored upward from another, each read when its turn
// comes.
pub fn copy_words(flash: &mut [u32], from: usize, to: usize, count: usize, power: Power) -> Power
    requires { (from + count ≤ length flash.old) × (to + count ≤ length flash.old) × ((from + count ≤ to) ⊎ (to ≤ from)) }
    ensures { Ran (puts to (take count (drop from flash.old))) power flash.old result flash.new }
{
    let mut p = power;
    for i in 0..count {
        let word = flash[from + i];
        p = flash::store(flash, to + i, word, p);
    }
    p
}

// Words 0 and 1 of a page as for the page with an index.
pub fn put_metadata(held: &mut Held, page: usize, index: usize)
    requires { (page ≤ held.old.area.pages) × (index < held.old.area.pages) }
    ensures { Runs (metadata held.old.area page index) held.old held.new }
{
    let at = base(held.area, page);
    held.store(at, META0);
    held.store(at + 1, meta1(held.area.pages, index));
}

// A page erased.
pub fn erase_page(held: &mut Held, index: usize)
    requires { index ≤ held.old.area.pages }
    ensures { Runs (erase held.old.area index ∷ []) held.old held.new }
{
    let at = base(held.area, index);
    held.erase(at, held.area.words);
}

// A page made empty.
fn format_page(held: &mut Held, index: usize)
    requires { index < held.old.area.pages }
    ensures { Runs (format_page held.old.area index held.old.run.now) held.old held.new }
{
    erase_page(held, index);
    put_metadata(held, index, index);
    held.store(base(held.area, index) + 2, SEAL);
}

// All pages made empty.
fn format_pages(held: &mut Held)
    ensures { Runs (each (format_page held.old.area) held.old.area.pages 0 held.old.run.now) held.old held.new }
{
    for index in 0..held.area.pages {
        format_page(held, index);
    }
}

// The stores of a format.
pub fn format(held: &mut Held)
    ensures { Runs (format_list held.old.area held.old.run.now) held.old held.new }
{
    erase_page(held, held.area.pages);
    format_pages(held);
}
