//! The area's entries, one behind the other through its pages: a walk over them, handles that are live
//! twice and the stores that mend it, and a step of a search by a filter. Promises are the definitions
//! of `rules`.
//!
//! Every function here is proved. `up_to` asks for a place inside the run, and the others for nothing.
//! None stores; in `doubles` two do.
#![tactic(auto)]

ghost use Rattle.std.specs.Prelude.{◌&&◌, ◌≡◌, ◌≤◌, eqb, length, take};
ghost use Rattle.std.specs.Int.Bits.{bit_and};
ghost use Rattle.rules.specs.Words.{is_live};
ghost use Rattle.rules.specs.Search.{next, bad_place};
ghost use Rattle.entries.specs.Step.{stepped_of};

pub mod doubles; // doubles.rt: handles that are live twice
pub mod walk; // walk.rt: the walk over the entries

use area::Run;
use rules::{Refusal, Yielded};
use walk::Entries;

// The run up to a place.
pub fn up_to(flash: &[u32], end: usize) -> &[u32]
    requires { end ≤ length flash.now }
    ensures { result.now ≡ take end flash.now }
{
    &flash[..end]
}

// Whether a handle is a live one that the filter lets through.
pub fn passes(handle: u32, mask: u32, pattern: u32) -> bool
    ensures { result ≡ is_live handle && eqb (bit_and handle mask) (bit_and pattern mask) }
{
    handle != 0 && handle & mask == pattern & mask
}

// A step of a search: the next match behind a place, if the place is 0 or that of an entry's header;
// BADPLACE if it is neither, NOTFOUND if there is no match. It walks once: places grow in area order,
// so the first entry that does not lie in front of the place tells whether one begins there.
#[tactic(auto, using(crate::specs::Step::stepping))]
pub fn step(run: Run, mask: u32, pattern: u32, start: usize) -> Yielded
    ensures { let a = run.entry.area in let f = run.entry.words.now in result ≡ stepped_of (bad_place a f start) (next a f mask pattern start) }
{
    let mut entries = Entries::from_page_of(run, start);
    if start != 0 {
        let Some(entry) = entries.reach(start) else {
            return Err(Refusal::BadPlace);
        };
        if entry.place != start {
            return Err(Refusal::BadPlace);
        }
    }
    for entry in entries {
        if passes(entry.handle, mask, pattern) {
            return Ok(entry.place);
        }
    }
    Err(Refusal::NotFound)
}
