//! One page, on a slice of its words: header fields, the walk, the page's kind, its live words, and
//! what a recovery page is. Promises are the definitions of `rules`, and `length_at`, which says the
//! walk's test of one place.
//!
//! Every function here is proved. `kind_at` alone has a `requires`: that it is told where the walk stops.
#![tactic(auto)]

ghost use Rattle.std.specs.Prelude.{◌≡◌, ◌≢◌, ◌-◌, ◌≤◌, ◌<◌, length, drop, IfSome, IfNone};
ghost use Rattle.rules.specs.Words.{handle_of, length_of};
ghost use Rattle.rules.specs.Walk.{items, stop, all_blank, meta_right, kind_of};
ghost use Rattle.rules.specs.Areas.{placed, recovery_of, live_words};
ghost use Rattle.pages.specs.Steps.{length_at, counted};

use flash::BLANK;
use rules::{Kind, META0, PageSize, Recovery, SEAL, SPECIAL};

// The handle in a header.
pub fn handle_of(word: u32) -> u32
    ensures { (result ≡ handle_of word) × (result < 65536) }
{
    word / 65536
}

// The length in a header.
pub fn length_of(word: u32) -> usize
    ensures { (result ≡ length_of word) × (result < 65536) }
{
    (word % 65536) as usize
}

// The length of the entry that begins at a place of a page, if one does.
#[tactic(auto, using(crate::specs::Steps::steps))]
pub fn length_at(page: &[u32], at: usize) -> Option<usize>
    ensures some { IfSome result (λ n. (n ≡ length_at page.now at) × (n ≢ 0) × (n ≤ length page.now - at - 1)) }
    ensures none { IfNone result (0 ≡ length_at page.now at) }
{
    let word = *page.get(at)?;
    let length = length_of(word);
    if handle_of(word) < SPECIAL
        && 1 <= length
        && length <= PageSize::LONGEST
        && at + length < page.len()
    {
        Some(length)
    } else {
        None
    }
}

// The place where the walk of a page stops.
#[tactic(auto, using(crate::specs::Steps::steps))]
pub fn stop(page: &[u32]) -> usize
    ensures { (result ≡ stop page.now) × (result ≤ length page.now) }
{
    if page.len() < 2 {
        return page.len();
    }
    let mut at = 2;
    while let Some(length) = length_at(page, at) {
        at += length;
    }
    at
}

// Whether all words of a page from a place on are blank.
pub fn blank_from(page: &[u32], at: usize) -> bool
    ensures { result ≡ all_blank (drop at page.now) }
{
    let Some(words) = page.get(at..) else {
        return true;
    };
    let mut common = BLANK;
    for &word in words {
        common &= word;
    }
    common == BLANK
}

// Whether a page has the metadata of the page with the index in an area of so many pages.
#[tactic(auto, unfolding(rules::specs::Walk::meta_right, rules::specs::Words::meta1))]
fn meta_right(page: &[u32], pages: u32, index: u32) -> bool
    ensures { result ≡ meta_right pages index page.now }
{
    let wanted = 0xFFFF_0000 + 256 * u64::from(index) + u64::from(pages);
    flash::word(page, 0) == META0 && u64::from(flash::word(page, 1)) == wanted
}

// What the page with the index in an area of so many pages is, by the place where its walk stops.
#[tactic(auto, using(crate::specs::Kinds::kinds))]
pub fn kind_at(page: &[u32], pages: u32, index: u32, at: usize) -> Kind
    requires { at ≡ stop page.now }
    ensures { result ≡ kind_of pages index page.now }
{
    if !meta_right(page, pages, index) || page.len() <= at || !blank_from(page, at + 1) {
        return Kind::Neither;
    }
    match page[at] {
        SEAL => Kind::Sealed,
        BLANK => Kind::Torn,
        _ => Kind::Neither,
    }
}

// What the page with the index in an area of so many pages is.
pub fn kind_of(page: &[u32], pages: u32, index: u32) -> Kind
    ensures { result ≡ kind_of pages index page.now }
{
    kind_at(page, pages, index, stop(page))
}

// What the recovery page of an area of so many pages is.
#[tactic(auto, using(crate::specs::Kinds::recoveries), unfolding(rules::specs::Words::index_of))]
pub fn recovery_of(page: &[u32], pages: u32) -> Recovery
    ensures { result ≡ recovery_of pages page.now }
{
    if blank_from(page, 0) {
        return Recovery::Free;
    }
    let word = flash::word(page, 1);
    if word == BLANK {
        return Recovery::Unfinished;
    }
    let index = word / 256 % 256;
    if pages <= index {
        return Recovery::Damage;
    }
    if kind_of(page, pages, index) == Kind::Sealed {
        Recovery::Committed(index as usize)
    } else {
        Recovery::Damage
    }
}

// What an entry counts as live words: its length, if it is live.
pub fn counted(handle: u32, words: usize) -> usize
    ensures { (result ≡ counted handle words) × (result ≤ words) }
{
    if handle == 0 { 0 } else { words }
}

// The live words of a page.
pub fn live_words(page: &[u32]) -> usize
    ensures { (result ≡ live_words (placed 2 (items page.now))) × (result ≤ length page.now) }
{
    if page.len() < 2 {
        return 0;
    }
    let mut at = 2;
    let mut sum = 0;
    while let Some(words) = length_at(page, at) {
        sum += counted(handle_of(page[at]), words);
        at += words;
    }
    sum
}
