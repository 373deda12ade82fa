// The bench: flash is crafted on it and asked, and it prints a line for each check.
use crate::image::Image;
use crate::show::Asked;
use rules::Area;
use std::io::Write;

// The image that is crafted, and where the lines are printed.
#[derive(Drop)]
pub struct Bench<'a, W> {
    to: W,
    pub image: Image<'a>,
}

impl<'a, W: Drop> Bench<'a, W> {
    // A bench on which no flash is, with space for the largest.
    pub fn new(to: W, space: &'a mut [u32]) -> Bench<'a, W> {
        Bench {
            to,
            image: Image::new(space),
        }
    }
}

impl<W: Write> Bench<'_, W> {
    // Takes a blank run of an area's words and so many more.
    pub fn take(&mut self, area: Area, more: usize) {
        self.image.blank(area, more);
    }

    // Writes a line that says what the next ones are about.
    pub fn title(&mut self, text: &str) {
        let _ = writeln!(self.to, "{text}");
    }

    // Writes a line that says what area the next ones are about.
    pub fn heading(&mut self) {
        let Area { pages, words } = self.image.area;
        let _ = writeln!(self.to, "== N {pages} P {words}");
    }

    // Reads handles.
    pub fn reads(&mut self, handles: &[u16]) {
        for &handle in handles {
            let _ = writeln!(self.to, "{}", self.image.asked().read(handle));
        }
    }

    // Makes a step of a search, behind a place.
    pub fn step(&mut self, mask: u16, pattern: u16, place: usize) {
        let step = self.image.asked().step(mask, pattern, place);
        let _ = writeln!(
            self.to,
            "search {mask:04x} {pattern:04x} behind {place:x}:{step}"
        );
    }

    // Makes a step of a search for all, behind each place.
    pub fn behind(&mut self, places: &[usize]) {
        for &place in places {
            self.step(0x0000, 0x0000, place);
        }
    }

    // Makes a whole search.
    pub fn whole(&mut self, mask: u16, pattern: u16) {
        let whole = self.image.asked().whole(mask, pattern);
        let _ = writeln!(self.to, "search {mask:04x} {pattern:04x}:{whole}");
    }

    // Reads handle 0012, and makes the first step of a search for all.
    pub fn both(&mut self) {
        write_both(&mut self.to, self.image.asked());
    }

    // Does the same while a page's word is another one.
    pub fn changed(&mut self, page: u8, at: usize, word: u32) {
        let old = self.image.exchange(page, at, word);
        let _ = write!(self.to, "page {page:x} word {at:x}: {word:08x}, ");
        self.both();
        self.image.set(page, at, old);
    }

    // Does the same with each change in turn: a page, a word of it, and what it is then.
    pub fn each_changed(&mut self, changes: &[(u8, usize, u32)]) {
        for &(page, at, word) in changes {
            self.changed(page, at, word);
        }
    }

    // Does the same on so many of the run's first words, as another area.
    pub fn first(&mut self, length: usize, area: Area) {
        let Area { pages, words } = area;
        let _ = write!(self.to, "run of {length}, N {pages} P {words}, ");
        if let Some(run) = self.image.run().get(..length) {
            write_both(&mut self.to, Asked { run, area });
        }
    }
}

// Reads handle 0012, and makes the first step of a search for all.
fn write_both(to: &mut impl Write, asked: Asked<'_>) {
    let read = asked.read(0x0012);
    let step = asked.step(0, 0, 0);
    let _ = writeln!(to, "{read}, search:{step}");
}
