// A search as an object, over the function that searches from a place. It holds the run and the
// area that it was opened on, the filter, and the place that it has reached.
//
// Every function here is proved, and none has a `requires`.
ghost use Rattle.std.specs.Prelude.{◌≡◌};
ghost use Rattle.rules.specs.Search.{place_after};
ghost use Rattle.searching.specs.Object.{Opens, Steps};

use rules::{Area, Yielded};

#[derive(Clone, Copy)]
pub struct Search<'a> {
    pub run: &'a [u32],
    pub area: Area,
    pub mask: u16,
    pub pattern: u16,
    pub place: usize,
}

impl<'a> Search<'a> {
    // Opens a search behind a place, 0 being the beginning. It is never refused: every step checks
    // the area and the place.
    pub fn open(run: &'a [u32], area: Area, mask: u16, pattern: u16, place: usize) -> Search<'a>
        ensures { Opens run.entry area mask pattern place result }
    {
        Search {
            run,
            area,
            mask,
            pattern,
            place,
        }
    }

    // Yields the place of the next match and moves there. A refused step yields 0 and stays.
    pub fn step(&mut self) -> Yielded
        ensures { Steps self.old result self.new }
    {
        let place = self.place;
        let yielded = crate::search(self.run, self.area, self.mask, self.pattern, place);
        self.place = place_after(place, yielded);
        yielded
    }
}

// The place that a search has reached once it has yielded: the match's, or the old one if refused.
fn place_after(place: usize, yielded: Yielded) -> usize
    ensures { result ≡ place_after place yielded }
{
    yielded.unwrap_or(place)
}
