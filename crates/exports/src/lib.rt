//! The manager for C and whatever calls as C does: its requests under plain names, over slices and
//! numbers alone. Each gives document 01's number of its answer, and puts the numbers that belong to
//! it where it is told.
//!
//! Every function here is proved, and none has a `requires`. In C a slice is a pointer and a number
//! of elements, and nothing there sees to it that so many can be read and written, or that a slice
//! and the numbers behind the other pointers lie apart: that is the caller's part.
#![tactic(auto)]

ghost use Rattle.rules.specs.Lists.{format, recover, write, delete};
ghost use Rattle.exports.specs.Numbers.{area_of, Gives, Locates, Yields};

use rules::Area;

// Makes the area empty, whatever the run holds; `stores` becomes the number of stores made.
#[unsafe(no_mangle)]
pub extern "C" fn asterhinge_format(
    flash: &mut [u32],
    pages: usize,
    words: usize,
    power: u32,
    stores: &mut u32,
) -> u32
    ensures { Gives (area_of pages words) format power flash.old result stores.new flash.new }
{
    let answer = manager::format(flash, Area { pages, words }, power);
    *stores = rules::answer_stores(answer);
    u32::from(rules::answer_number(answer))
}

// Makes an undamaged area ready; `stores` becomes the number of stores made.
#[unsafe(no_mangle)]
pub extern "C" fn asterhinge_recover(
    flash: &mut [u32],
    pages: usize,
    words: usize,
    power: u32,
    stores: &mut u32,
) -> u32
    ensures { Gives (area_of pages words) recover power flash.old result stores.new flash.new }
{
    let answer = manager::recover(flash, Area { pages, words }, power);
    *stores = rules::answer_stores(answer);
    u32::from(rules::answer_number(answer))
}

// Gives a handle its data, in place of what it had; `stores` becomes the number of stores made.
#[unsafe(no_mangle)]
pub extern "C" fn asterhinge_write(
    flash: &mut [u32],
    pages: usize,
    words: usize,
    handle: u16,
    data: &[u32],
    power: u32,
    stores: &mut u32,
) -> u32
    ensures { Gives (area_of pages words) (write handle «data».now) power flash.old result stores.new flash.new }
{
    let answer = manager::write(flash, Area { pages, words }, handle, data, power);
    *stores = rules::answer_stores(answer);
    u32::from(rules::answer_number(answer))
}

// Takes a handle's data away; `stores` becomes the number of stores made.
#[unsafe(no_mangle)]
pub extern "C" fn asterhinge_delete(
    flash: &mut [u32],
    pages: usize,
    words: usize,
    handle: u16,
    power: u32,
    stores: &mut u32,
) -> u32
    ensures { Gives (area_of pages words) (delete handle) power flash.old result stores.new flash.new }
{
    let answer = manager::delete(flash, Area { pages, words }, handle, power);
    *stores = rules::answer_stores(answer);
    u32::from(rules::answer_number(answer))
}

// Where a handle's data lie: `place` becomes the place of its entry's header in the run, one word
// before the data, and `count` the number of data words; both 0 if refused.
#[unsafe(no_mangle)]
pub extern "C" fn asterhinge_read(
    flash: &[u32],
    pages: usize,
    words: usize,
    handle: u16,
    place: &mut usize,
    count: &mut usize,
) -> u32
    ensures { Locates (area_of pages words) handle flash.now result place.new count.new }
{
    let reading = manager::read(flash, Area { pages, words }, handle);
    *place = rules::reading_place(reading);
    *count = rules::reading_words(reading);
    u32::from(rules::number(reading))
}

// A step of a search from a place, 0 being the beginning: `place` becomes the place of the next
// match's header in the run, 0 if refused.
#[unsafe(no_mangle)]
pub extern "C" fn asterhinge_search(
    flash: &[u32],
    pages: usize,
    words: usize,
    mask: u16,
    pattern: u16,
    start: usize,
    place: &mut usize,
) -> u32
    ensures { Yields (area_of pages words) mask pattern start flash.now result place.new }
{
    let yielded = searching::search(flash, Area { pages, words }, mask, pattern, start);
    *place = rules::yielded_place(yielded);
    u32::from(rules::number(yielded))
}
