//! Recovery of an area, step by step, each reading the flash as the step before left it: R finished,
//! torn pages mended, doubles dropped. Promises are the lists of `rules`, run under power.
//!
//! Every function here is proved, and none that is public has a `requires`.
#![tactic(auto)]

ghost use Rattle.std.specs.Prelude.{◌≡◌, ◌≤◌, ◌<◌, length};
ghost use Rattle.flash.specs.Stores.{each};
ghost use Rattle.rules.specs.declared.Kind.TheVariants.{Torn};
ghost use Rattle.rules.specs.declared.Recovery.TheVariants.{Committed};
ghost use Rattle.rules.specs.Lists.{finish_as, finish, last_of, mend_as, mend, recover_list};
ghost use Rattle.area.specs.Holding.{Runs};
ghost use Rattle.pages.specs.Steps.{entries_at};
ghost use Rattle.entries.specs.Ahead.{found_of};
ghost use Rattle.stores.specs.Making.{data_words};
ghost use Rattle.recovery.specs.Mending.{if_live};

use area::Held;
use rules::{Found, Kind, Recovery, SEAL};

// The page that a committed R names made anew of R's words, up to and with the seal, and R freed.
fn finish_page(held: &mut Held, index: usize)
    requires { index < held.old.area.pages }
    ensures { Runs (finish_as (Committed index) held.old.area held.old.run.now) held.old held.new }
{
    let run = held.as_run();
    let stop = pages::stop(run.page(run.area.pages));
    compaction::restore(held, index, stop - 1);
}

// A compaction that was cut is finished if R is committed, and undone if R is unfinished: then R is
// erased.
fn finish(held: &mut Held)
    ensures { Runs (finish held.old.area held.old.run.now) held.old held.new }
{
    match held.as_run().recovery() {
        Recovery::Free => {}
        Recovery::Unfinished => stores::erase_page(held, held.area.pages),
        Recovery::Committed(index) => finish_page(held, index),
        Recovery::Damage => {}
    }
}

// The last of the entries from a place on, if that one is live.
fn last_live(part: &[u32], start: usize) -> Option<Found>
    ensures { (result ≡ found_of (if_live (last_of (entries_at part.now start)))) × (data_words result ≤ length part.now) }
{
    let mut last = None;
    let mut at = start;
    while let Some(length) = pages::length_at(part, at) {
        last = Some((at, length));
        at += length;
    }
    let Some((place, length)) = last else {
        return None;
    };
    if pages::handle_of(part[place]) == 0 {
        return None;
    }
    Some(Found {
        place,
        words: length - 1,
    })
}

// A torn page made a sealed one: its last entry bare, if that is live, and the seal behind its
// entries.
fn mend_torn(held: &mut Held, index: usize)
    requires { index < held.old.area.pages }
    ensures { Runs (mend_as Torn held.old.area index held.old.run.now) held.old held.new }
{
    let base = stores::base(held.area, index);
    let end = base + held.area.words;
    let run = held.as_run();
    let last = last_live(entries::up_to(run.words, end), base + 2);
    let stop = pages::stop(run.page(index));
    held.power = stores::bare_found(held.run, last, held.power);
    held.store(base + stop, SEAL);
}

// A page mended, if it is torn.
fn mend(held: &mut Held, index: usize)
    requires { index < held.old.area.pages }
    ensures { Runs (mend held.old.area index held.old.run.now) held.old held.new }
{
    match held.as_run().kind(index) {
        Kind::Sealed => {}
        Kind::Torn => mend_torn(held, index),
        Kind::Neither => {}
    }
}

// All pages mended that are torn.
fn mend_pages(held: &mut Held)
    ensures { Runs (each (mend held.old.area) held.old.area.pages 0 held.old.run.now) held.old held.new }
{
    for index in 0..held.area.pages {
        mend(held, index);
    }
}

// The stores of a recovery.
pub fn recover(held: &mut Held)
    ensures { Runs (recover_list held.old.area held.old.run.now) held.old held.new }
{
    finish(held);
    mend_pages(held);
    entries::doubles::drop_doubles(held);
}
