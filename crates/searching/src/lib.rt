//! Search by a filter, over the entries of an area of flash. It keeps nothing between its steps.
//!
//! Every function here is proved, and none has a `requires`: any area, run, filter and place is
//! answered. A search changes no word.
#![tactic(auto)]

ghost use Rattle.searching.specs.Searching.{Searches};

use area::Run;
use rules::{Area, Yielded};

pub mod object; // object.rt: a search as an object

// The place of the next entry behind a place, 0 being the beginning, that is live and whose handle
// agrees with the pattern in the bits of the mask. Refused are a wrong geometry, a damaged or
// unready area, a place that is neither 0 nor that of an entry's header, and a search without a
// further match.
pub fn search(flash: &[u32], area: Area, mask: u16, pattern: u16, place: usize) -> Yielded
    ensures { Searches area mask pattern place flash.now result }
{
    let _ready = survey::survey(flash, area, 0, 0)?;
    let run = Run { words: flash, area };
    entries::step(run, u32::from(mask), u32::from(pattern), place)
}
