//! The manager: what callers ask of an area of flash. It keeps nothing between requests.
//!
//! Every function here is proved, and no public one has a `requires`: any area, run, handle, data and
//! power is answered. A request that reads changes no word. One that stores is given power for so many
//! stores, and answers how many were made.
#![tactic(auto)]

ghost use Rattle.std.specs.Prelude.{true, ◌≡◌, suc, ◌+◌, min, ◌≤◌, ◌<◌, length, take, drop};
ghost use Rattle.rules.specs.Words.{longest};
ghost use Rattle.rules.specs.Walk.{entry_length};
ghost use Rattle.rules.specs.Areas.{ready};
ghost use Rattle.rules.specs.Refusals.{bad_handle};
ghost use Rattle.rules.specs.Lists.{format, recover, write, delete};
ghost use Rattle.rules.specs.Laws.{answer_of};
ghost use Rattle.rules.specs.Places.{Right};
ghost use Rattle.survey.specs.Surveying.{view_of};
ghost use Rattle.manager.specs.Reading.{Reads};
ghost use Rattle.manager.specs.Holding.{last_word, has_words};
ghost use Rattle.manager.specs.Storing.{Answers, full, Rest};

use area::Held;
use flash::Power;
use rules::{Answer, Area, Found, Made, Reading, Refusal, SPECIAL};
use survey::View;

// Whether no entry can be live under a handle.
fn bad_handle(handle: u32) -> bool
    ensures { result ≡ bad_handle handle }
{
    handle == 0 || SPECIAL <= handle
}

// Where a handle's data lie: the place of its live entry's header in the run, one word before the
// data, and the number of data words. Nothing is copied. Refused are a wrong geometry, a damaged or
// unready area, a bad handle, and one that has no live entry.
pub fn read(flash: &[u32], area: Area, handle: u16) -> Reading
    ensures { Reads area handle flash.now result }
{
    let wanted = u32::from(handle);
    let view = survey::survey(flash, area, wanted, 0)?;
    if bad_handle(wanted) {
        return Err(Refusal::BadHandle);
    }
    view.entry.ok_or(Refusal::NotFound)
}

// The power for so many stores.
fn full(power: u32) -> Power
    ensures { result ≡ full power }
{
    Power {
        left: power,
        cut: false,
    }
}

// What is answered where power for so many stores was given, and so much of it is left.
fn answer(power: u32, rest: Power) -> Answer
    requires { rest.left ≤ power }
    ensures { result ≡ answer_of power rest }
{
    let stores = power - rest.left;
    if rest.cut {
        return Ok(Made::Cut(stores));
    }
    Ok(Made::Done(stores))
}

// Makes the area empty, whatever the run holds. Refused is a wrong geometry.
pub fn format(flash: &mut [u32], area: Area, power: u32) -> Answer
    ensures { Answers area format power flash.old result flash.new }
{
    if area::wrong_geometry(flash, area) {
        return Err(Refusal::Geometry);
    }
    let mut held = Held::new(flash, area, full(power));
    stores::format(&mut held);
    answer(power, held.power)
}

// Makes an undamaged area ready, from wherever the power was cut; one that is ready takes no store.
// Where R is free and all pages are sealed, doubles alone are left to drop, by what was seen of them.
// Refused are a wrong geometry and a damaged area.
pub fn recover(flash: &mut [u32], area: Area, power: u32) -> Answer
    ensures { Answers area recover power flash.old result flash.new }
{
    let looked = survey::look(flash, area, 0, 0)?;
    match looked {
        None => {
            let mut held = Held::new(flash, area, full(power));
            recovery::recover(&mut held);
            answer(power, held.power)
        }
        Some(sight) => {
            let mut held = Held::new(flash, area, full(power));
            entries::doubles::drop_in(&mut held, sight.windows);
            answer(power, held.power)
        }
    }
}

// Takes a handle's data away. Refused are a wrong geometry, a damaged or unready area, a bad handle,
// and one that has no live entry.
pub fn delete(flash: &mut [u32], area: Area, handle: u16, power: u32) -> Answer
    ensures { Answers area (delete handle) power flash.old result flash.new }
{
    let handle = u32::from(handle);
    let view = survey::survey(flash, area, handle, 0)?;
    if bad_handle(handle) {
        return Err(Refusal::BadHandle);
    }
    let Some(entry) = view.entry else {
        return Err(Refusal::NotFound);
    };
    let rest = stores::bare(flash, entry.place, entry.words, full(power));
    answer(power, rest)
}

// The words of an entry with these data; those of the longest, if no entry can have them.
fn entry_words(data: &[u32]) -> usize
    ensures { (result ≡ min (entry_length «data».now) longest) × (result ≤ longest) }
{
    data.len().min(32) + 1
}

// The data of an entry: so many words of the run behind a place.
fn data_at(flash: &[u32], place: usize, words: usize) -> &[u32]
    requires { place + words < length flash.now }
    ensures { result.now ≡ take words (drop (suc place) flash.now) }
{
    let start = place + 1;
    let end = start + words;
    &flash[start..end]
}

// Whether the entry found has these very data; false if none was found.
fn has_words(flash: &[u32], found: Option<Found>, data: &[u32]) -> bool
    requires { last_word found < length flash.now }
    ensures { result ≡ has_words flash.now found «data».now }
{
    match found {
        Some(entry) => data_at(flash, entry.place, entry.words) == data,
        None => false,
    }
}

// The rest of a write, on a ready area, of a handle and data that can be written.
fn write_entry(
    flash: &mut [u32],
    area: Area,
    view: View,
    handle: u32,
    data: &[u32],
    power: u32,
) -> Answer
    requires { Right area flash.old × (ready area flash.old ≡ true) × (view ≡ view_of area flash.old handle (entry_length «data».now)) × (handle < 65536) × (length «data».now ≤ 32) }
    ensures { Rest area handle «data».now power flash.old result flash.new }
{
    let entry = view.entry;
    if has_words(flash, entry, data) {
        return Ok(Made::Done(0));
    }
    if survey::is_full(area, view.live, data.len() + 1) {
        return Err(Refusal::NoRoom);
    }
    let mut held = Held::new(flash, area, full(power));
    writing::write(&mut held, view, handle, data);
    answer(power, held.power)
}

// Gives a handle its data, in place of what it had. Refused are a wrong geometry, a damaged or
// unready area, a bad handle, more than 32 words, and what there is no room for. Data that the handle
// holds already take no store.
pub fn write(flash: &mut [u32], area: Area, handle: u16, data: &[u32], power: u32) -> Answer
    ensures { Answers area (write handle «data».now) power flash.old result flash.new }
{
    let handle = u32::from(handle);
    let view = survey::survey(flash, area, handle, entry_words(data))?;
    if bad_handle(handle) {
        return Err(Refusal::BadHandle);
    }
    if 32 < data.len() {
        return Err(Refusal::BadLength);
    }
    write_entry(flash, area, view, handle, data, power)
}
