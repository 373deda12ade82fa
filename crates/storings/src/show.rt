// What is lent, as it is printed: each number stands behind a blank.
use rules::{Area, Reading};
use std::fmt;

// So many words of a run from a place on, 0 where there is none.
#[derive(Clone, Copy)]
pub struct Words<'a> {
    pub run: &'a [u32],
    pub place: usize,
    pub count: usize,
}

impl fmt::Display for Words<'_> {
    // Each word in eight digits.
    fn fmt<W: fmt::Write>(&self, f: &mut fmt::Formatter<W>) -> fmt::Result {
        for at in self.place..self.place.saturating_add(self.count) {
            write!(f, " {:08x}", flash::word(self.run, at))?;
        }
        Ok(())
    }
}

// The words that a read of a handle finds.
fn found(run: &[u32], reading: Reading) -> Words<'_> {
    Words {
        run,
        place: rules::reading_place(reading).saturating_add(1),
        count: rules::reading_words(reading),
    }
}

// A read of a handle: the number, the place, the count of words, and the words.
#[derive(Clone, Copy)]
pub struct Entry<'a> {
    pub run: &'a [u32],
    pub area: Area,
    pub handle: u16,
}

impl fmt::Display for Entry<'_> {
    // The number in two digits, place and count, and the words.
    fn fmt<W: fmt::Write>(&self, f: &mut fmt::Formatter<W>) -> fmt::Result {
        let reading = manager::read(self.run, self.area, self.handle);
        write!(
            f,
            " {:02x} {:x} {:x}{}",
            rules::number(reading),
            rules::reading_place(reading),
            rules::reading_words(reading),
            found(self.run, reading)
        )
    }
}

// A whole search: each handle that it yields, with the words that a read then finds, and the number of
// the first step that is refused.
#[derive(Clone, Copy)]
pub struct Map<'a> {
    pub run: &'a [u32],
    pub area: Area,
    pub mask: u16,
    pub pattern: u16,
}

impl Map<'_> {
    // Writes the handle of the entry at a place, and the words that a read of it finds.
    fn write_entry<W: fmt::Write>(&self, f: &mut fmt::Formatter<W>, place: usize) -> fmt::Result {
        let handle = (flash::word(self.run, place) / 65536) as u16;
        let reading = manager::read(self.run, self.area, handle);
        write!(f, " {handle:04x}{},", found(self.run, reading))
    }
}

impl fmt::Display for Map<'_> {
    // Each handle with its words and a comma behind it, and the last number.
    fn fmt<W: fmt::Write>(&self, f: &mut fmt::Formatter<W>) -> fmt::Result {
        let mut place = 0;
        for _ in self.run {
            match searching::search(self.run, self.area, self.mask, self.pattern, place) {
                Ok(next) => place = next,
                Err(why) => return write!(f, " {:02x}", why.number()),
            }
            self.write_entry(f, place)?;
        }
        Ok(())
    }
}
