//! The stores of a write: an entry behind the others of a page that has the room, or of one that a
//! compaction makes the room in; last, the handle's old entry to its bare length. Promises are the
//! lists of `rules`, run under power.
//!
//! Every function here is proved. Those that make an entry ask for a handle of 16 bits and for data
//! that an entry can have; `write` asks besides for a ready area, and for what a survey found of it.
#![tactic(auto)]

ghost use Rattle.std.specs.Prelude.{true, [], ◌∷◌, ◌++◌, ◌≡◌, ◌≤◌, ◌<◌, length};
ghost use Rattle.std.specs.Option.{option_or};
ghost use Rattle.flash.specs.Stores.{puts, ◌then◌, Ran};
ghost use Rattle.rules.specs.Words.{header, seal};
ghost use Rattle.rules.specs.Walk.{entry_length, stop};
ghost use Rattle.rules.specs.Areas.{page, page_entries, entries, find, ready};
ghost use Rattle.rules.specs.Lists.{compact, room_page, append, append_to};
ghost use Rattle.area.specs.Holding.{Runs};
ghost use Rattle.pages.specs.Steps.{entries_at};
ghost use Rattle.entries.specs.Ahead.{found_of};
ghost use Rattle.survey.specs.Surveying.{view_of};
ghost use Rattle.stores.specs.Making.{data_words};
ghost use Rattle.writing.specs.Moving.{append_over};

use area::{Held, Run};
use flash::Power;
use rules::{Found, SEAL};
use survey::View;

// The header of an entry of so many words.
fn header(handle: u32, words: usize) -> u32
    requires { (handle < 65536) × (words < 65536) }
    ensures { result ≡ header handle words }
{
    65536 * handle + (words as u32)
}

// An entry from a place on, header first, and the seal behind it.
fn put_entry(flash: &mut [u32], at: usize, handle: u32, data: &[u32], power: Power) -> Power
    requires { (at ≤ 262143) × (handle < 65536) × (length «data».now ≤ 32) }
    ensures { Ran (puts at (header handle (entry_length «data».now) ∷ («data».now ++ seal ∷ []))) power flash.old result flash.new }
{
    let a = flash::store(flash, at, header(handle, data.len() + 1), power);
    let b = stores::put_words(flash, at + 1, data, a);
    flash::store(flash, at + 1 + data.len(), SEAL, b)
}

// An entry behind those of a page, where its walk stops, and an old one to its bare length. Inlined,
// so that no run is handed over in memory.
#[inline(always)]
fn append(held: &mut Held, index: usize, end: usize, old: Option<Found>, handle: u32, data: &[u32])
    requires { (index < held.old.area.pages) × (end ≡ stop (page held.old.area held.old.run.now index)) × (data_words old ≤ 262144) × (handle < 65536) × (length «data».now ≤ 32) }
    ensures { Runs (append_over held.old.area handle «data».now index old held.old.run.now) held.old held.new }
{
    let at = stores::base(held.area, index) + end;
    held.power = put_entry(held.run, at, handle, data, held.power);
    held.power = stores::bare_found(held.run, old, held.power);
}

// The first live entry of a handle from a place of a run on, which ends where the page does.
fn find_ahead(run: &[u32], start: usize, handle: u32) -> Option<Found>
    ensures { (result ≡ found_of (find handle (entries_at run.now start))) × (data_words result ≤ length run.now) }
{
    if handle == 0 {
        return None;
    }
    let mut at = start;
    while let Some(length) = pages::length_at(run, at) {
        if pages::handle_of(run[at]) == handle {
            return Some(Found {
                place: at,
                words: length - 1,
            });
        }
        at += length;
    }
    None
}

// The first live entry of a handle in a page.
fn find_in(run: Run, index: usize, handle: u32) -> Option<Found>
    requires { index < run.area.pages }
    ensures { (result ≡ found_of (find handle (page_entries run.entry.area run.entry.words.now index))) × (data_words result ≤ 262144) }
{
    let start = stores::base(run.area, index);
    let words = entries::up_to(run.words, start + run.area.words);
    find_ahead(words, start + 2, handle)
}

// A handle's entry behind the compaction of a page: in that page, or else where it was before.
fn moved(run: Run, index: usize, handle: u32, before: Option<Found>) -> Option<Found>
    requires { (index < run.area.pages) × (data_words before ≤ 262144) }
    ensures { (result ≡ option_or (found_of (find handle (page_entries run.entry.area run.entry.words.now index))) before) × (data_words result ≤ 262144) }
{
    find_in(run, index, handle).or(before)
}

// A page compacted, and an entry behind those that it keeps; last, the handle's old entry, found
// before, to its bare length.
fn compact_and_append(
    held: &mut Held,
    index: usize,
    before: Option<Found>,
    handle: u32,
    data: &[u32],
)
    requires { (ready held.old.area held.old.run.now ≡ true) × (index < held.old.area.pages) × (before ≡ found_of (find handle (entries held.old.area held.old.run.now))) × (handle < 65536) × (length «data».now ≤ 32) }
    ensures { Runs ((compact held.old.area index then append held.old.area handle «data».now index) held.old.run.now) held.old held.new }
{
    compaction::compact(held, index);
    let run = held.as_run();
    let end = pages::stop(run.page(index));
    let old = moved(run, index, handle, before);
    append(held, index, end, old, handle, data);
}

// An entry to the lowest page whose compaction makes room for it.
fn append_compacted(held: &mut Held, view: View, handle: u32, data: &[u32])
    requires { (ready held.old.area held.old.run.now ≡ true) × (view ≡ view_of held.old.area held.old.run.now handle (entry_length «data».now)) × (handle < 65536) × (length «data».now ≤ 32) }
    ensures { Runs (append_to held.old.area handle «data».now None held.old.run.now) held.old held.new }
{
    match view.compact {
        None => (),
        Some(page) => {
            let before = view.entry;
            compact_and_append(held, page.index, before, handle, data);
        }
    }
}

// The stores of a write of data that the handle does not hold.
pub fn write(held: &mut Held, view: View, handle: u32, data: &[u32])
    requires { (ready held.old.area held.old.run.now ≡ true) × (view ≡ view_of held.old.area held.old.run.now handle (entry_length «data».now)) × (handle < 65536) × (length «data».now ≤ 32) }
    ensures { Runs (append_to held.old.area handle «data».now (room_page held.old.area held.old.run.now (entry_length «data».now)) held.old.run.now) held.old held.new }
{
    match view.room {
        None => append_compacted(held, view, handle, data),
        Some(page) => {
            let old = view.entry;
            append(held, page.index, page.stop, old, handle, data);
        }
    }
}
