// The walk over the area's entries, one behind the other through its pages. Promises are the
// definitions of `rules`, and those of `Ahead` and `Pages`, which say what a walk has left.
//
// Every function here is proved, and none stores. `Entries::of` asks for a right geometry.
ghost use Rattle.std.specs.Prelude.{◌≡◌, ◌≤◌, [], MatchOption};
ghost use Rattle.std.specs.Iterator.{item_count};
ghost use Rattle.rules.specs.Areas.{any_of, live_of};
ghost use Rattle.entries.specs.Ahead.{ahead, entries_of, left_of, first_cursor, Sound, Passed, Standing, Gives, Over};
ghost use Rattle.entries.specs.Pages.{From, Reached, AllBelow};

use crate::up_to;
use area::Run;
use rules::Area;

// The header of an entry: its place in the run, the entry's handle and its length.
#[derive(Clone, Copy)]
pub struct Header {
    pub place: usize,
    pub handle: u32,
    pub length: usize,
}

// A place that a walk has come to: where the next entry begins if the page has one there, where the
// page ends, and how many pages are left behind it.
#[derive(Clone, Copy)]
pub(crate) struct Cursor {
    place: usize,
    end: usize,
    left: usize,
}

impl Cursor {
    // In front of the area's first entry.
    pub(crate) fn first(area: Area) -> Cursor
        requires { 1 ≤ area.pages }
        ensures { result ≡ first_cursor area }
    {
        Cursor {
            place: 2,
            end: area.words,
            left: area.pages - 1,
        }
    }

    // Moves over the next entry, and gives its header.
    #[tactic(auto, using(crate::specs::Ahead::cursors))]
    pub(crate) fn next(&mut self, run: Run) -> Option<Header>
        requires { Sound run.area run.words.now self.old }
        ensures sound { Sound run.entry.area run.entry.words.now self.new }
        ensures gives { let a = run.entry.area in let f = run.entry.words.now in MatchOption result ((ahead a f self.old ≡ []) × (ahead a f self.new ≡ [])) (λ h. Passed a f self.old h self.new) }
    {
        loop {
            let place = self.place;
            if let Some(length) = pages::length_at(up_to(run.words, self.end), place) {
                let handle = pages::handle_of(run.words[place]);
                self.place += length;
                return Some(Header {
                    place,
                    handle,
                    length,
                });
            }
            if self.left == 0 {
                return None;
            }
            self.place = self.end + 2;
            self.end += run.area.words;
            self.left -= 1;
        }
    }
}

// The entries of an area from a cursor on.
#[derive(Clone, Copy, Drop)]
pub struct Entries<'a> {
    run: Run<'a>,
    cursor: Cursor,
}

impl<'a> Iterator for Entries<'a> {
    type Item = Header;

    ghost can_next = { Standing };

    ghost next_gives = { Gives };

    ghost remaining = { item_count left_of };

    fn next(&mut self) -> Option<Header> {
        self.cursor.next(self.run)
    }
}

impl<'a> Entries<'a> {
    // All entries of an area.
    pub fn of(run: Run<'a>) -> Entries<'a>
        ensures { Over run.entry (entries_of run.entry) result }
    {
        let cursor = Cursor::first(run.area);
        Entries { run, cursor }
    }

    // Those from a cursor on.
    pub(crate) fn from_cursor(run: Run<'a>, cursor: Cursor) -> Entries<'a>
        requires { Sound run.area run.words.now cursor }
        ensures { Over run.entry (ahead run.entry.area run.entry.words.now cursor) result }
    {
        Entries { run, cursor }
    }

    // Entries among which are all that lie at a place or behind it: those from the page on that the
    // place lies in, or all, where none does.
    pub(crate) fn from_page_of(run: Run<'a>, place: usize) -> Entries<'a>
        ensures { From run.entry place result }
    {
        let area = run.area;
        let index = place / area.words;
        if area.pages <= index {
            let cursor = Cursor::first(area);
            return Entries { run, cursor };
        }
        let base = index * area.words;
        let cursor = Cursor {
            place: base + 2,
            end: base + area.words,
            left: area.pages - 1 - index,
        };
        Entries { run, cursor }
    }

    // Moves over the entries in front of a place and the first that does not lie in front of it, and
    // gives the header of that one.
    #[tactic(auto, using(crate::specs::Pages::reaches))]
    pub(crate) fn reach(&mut self, place: usize) -> Option<Header>
        requires { Standing self.old }
        ensures { MatchOption result (AllBelow place (left_of self.old)) (λ h. Reached place self.old h self.new) }
    {
        while let Some(entry) = self.next() {
            if place <= entry.place {
                return Some(entry);
            }
        }
        None
    }

    // Whether a handle is live under one of the entries.
    #[tactic(auto, using(crate::specs::Ahead::lives))]
    pub(crate) fn has_live(self, handle: u32) -> bool
        requires { Standing self }
        ensures { result ≡ any_of (live_of handle) (left_of self.entry) }
    {
        if handle == 0 {
            return false;
        }
        for entry in self {
            if entry.handle == handle {
                return true;
            }
        }
        false
    }
}
