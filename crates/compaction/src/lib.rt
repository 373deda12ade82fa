//! The compaction of a page: its live entries to R, word by word from where they lie, and back.
//! Promises are the lists of `rules`, run under power.
//!
//! Every function here is proved. A compaction asks for a ready area, in which R is blank and takes the
//! words as they are.
#![tactic(auto)]

ghost use Rattle.std.specs.Prelude.{true, [], ◌∷◌, ◌++◌, ◌≡◌, ◌≢◌, ◌+◌, ◌-◌, ◌≤◌, ◌<◌, length, get_or, take, drop, IfSome, IfNone};
ghost use Rattle.flash.specs.Stores.{puts};
ghost use Rattle.rules.specs.Words.{handle_of, seal};
ghost use Rattle.rules.specs.Areas.{R, base, page, ready};
ghost use Rattle.rules.specs.Lists.{live_codes, copy_to, restore, compact};
ghost use Rattle.area.specs.Holding.{Runs};
ghost use Rattle.pages.specs.Steps.{length_at, counted};
ghost use Rattle.compaction.specs.Copying.{copied_back};

use area::{Held, Run};
use rules::SEAL;

// The length of the entry that begins at a place of the run, within its page's end, if one does.
fn length_within(flash: &[u32], end: usize, at: usize) -> Option<usize>
    requires { end ≤ length flash.now }
    ensures some { IfSome result (λ n. (n ≡ length_at (take end flash.now) at) × (n ≢ 0) × (n ≤ length flash.now - at - 1)) }
    ensures none { IfNone result (0 ≡ length_at (take end flash.now) at) }
{
    pages::length_at(entries::up_to(flash, end), at)
}

// How many words of the entry at a place are copied: all that it has, if it is live.
fn kept(flash: &[u32], at: usize, words: usize) -> usize
    requires { at < length flash.now }
    ensures { (result ≡ counted (handle_of (get_or flash.now at 0)) words) × (result ≤ words) }
{
    pages::counted(pages::handle_of(flash[at]), words)
}

// The live entries of a page, in order, to R from word 2.
fn copy_live(held: &mut Held, index: usize)
    requires { index < held.old.area.pages }
    ensures { Runs (puts (base held.old.area (R held.old.area) + 2) (live_codes held.old.area held.old.run.now index)) held.old held.new }
{
    let area = held.area;
    let start = stores::base(area, index);
    let mut at = start + 2;
    let mut to = stores::base(area, area.pages) + 2;
    while let Some(length) = length_within(held.words(), start + area.words, at) {
        let count = kept(held.words(), at, length);
        held.power = stores::copy_words(held.run, at, to, count, held.power);
        to += count;
        at += length;
    }
}

// The number of words of a page's live entries.
fn live_length(run: Run, index: usize) -> usize
    requires { index < run.area.pages }
    ensures { (result ≡ length (live_codes run.entry.area run.entry.words.now index)) × (result ≤ run.entry.area.words) }
{
    pages::live_words(run.page(index))
}

// A page's live entries, so many words in all, to R; then the seal behind them, and the metadata.
fn fill_r(held: &mut Held, index: usize, live: usize)
    requires { (index < held.old.area.pages) × (live ≡ length (live_codes held.old.area held.old.run.now index)) × (live ≤ held.old.area.words) }
    ensures { Runs (copy_to held.old.area (R held.old.area) index (live_codes held.old.area held.old.run.now index ++ seal ∷ [])) held.old held.new }
{
    let at = stores::base(held.area, held.area.pages) + 2 + live;
    copy_live(held, index);
    held.store(at, SEAL);
    stores::put_metadata(held, held.area.pages, index);
}

// A page erased, and so many of R's words from word 2 copied to it.
fn copy_back(held: &mut Held, index: usize, count: usize)
    requires { (index < held.old.area.pages) × (count + 2 ≤ held.old.area.words) }
    ensures { Runs (copied_back held.old.area index count held.old.run.now) held.old held.new }
{
    let from = stores::base(held.area, held.area.pages) + 2;
    let to = stores::base(held.area, index) + 2;
    stores::erase_page(held, index);
    held.power = stores::copy_words(held.run, from, to, count, held.power);
}

// A page made anew of so many of R's words from word 2, and R freed. Inlined, so that no run is handed
// over in memory.
#[inline(always)]
pub fn restore(held: &mut Held, index: usize, count: usize)
    requires { (index < held.old.area.pages) × (count + 2 ≤ held.old.area.words) }
    ensures { Runs (restore held.old.area index (take count (drop 2 (page held.old.area held.old.run.now (R held.old.area))))) held.old held.new }
{
    copy_back(held, index, count);
    stores::put_metadata(held, index, index);
    stores::erase_page(held, held.area.pages);
}

// The stores of a compaction of a page.
pub fn compact(held: &mut Held, index: usize)
    requires { (index < held.old.area.pages) × (ready held.old.area held.old.run.now ≡ true) }
    ensures { Runs (compact held.old.area index held.old.run.now) held.old held.new }
{
    let live = live_length(held.as_run(), index);
    fill_r(held, index, live);
    restore(held, index, live + 1);
}
