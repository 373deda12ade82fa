// What the manager answers, as it is printed. Numbers are hexadecimal.
use rules::{Area, Yielded};
use std::fmt;

// A run that is asked as an area.
#[derive(Clone, Copy)]
pub struct Asked<'a> {
    pub run: &'a [u32],
    pub area: Area,
}

impl<'a> Asked<'a> {
    // A read of a handle, to be made and written.
    pub fn read(self, handle: u16) -> Read<'a> {
        Read {
            asked: self,
            handle,
        }
    }

    // A step of a search behind a place.
    pub fn step(self, mask: u16, pattern: u16, place: usize) -> Step {
        Step(searching::search(self.run, self.area, mask, pattern, place))
    }

    // A whole search, to be made and written.
    pub fn whole(self, mask: u16, pattern: u16) -> Whole<'a> {
        Whole {
            asked: self,
            mask,
            pattern,
        }
    }
}

// A read of a handle: the number, the place, the number of words, and the data words that stand there.
// More than 32 are no data, and are not written.
#[derive(Clone, Copy)]
pub struct Read<'a> {
    asked: Asked<'a>,
    handle: u16,
}

impl fmt::Display for Read<'_> {
    // What is read, a colon, and what is answered.
    fn fmt<W: fmt::Write>(&self, f: &mut fmt::Formatter<W>) -> fmt::Result {
        let Asked { run, area } = self.asked;
        let reading = manager::read(run, area, self.handle);
        let place = rules::reading_place(reading);
        let words = rules::reading_words(reading);
        write!(
            f,
            "read {:04x}: {:02x} {place:x} {words:x}",
            self.handle,
            rules::number(reading)
        )?;
        if words <= 32 {
            for word in 1..=words {
                write!(f, " {:08x}", flash::word(run, place.saturating_add(word)))?;
            }
        }
        Ok(())
    }
}

// What a step of a search yields: number and place.
#[derive(Clone, Copy)]
pub struct Step(Yielded);

impl fmt::Display for Step {
    // The number in two digits, and the place.
    fn fmt<W: fmt::Write>(&self, f: &mut fmt::Formatter<W>) -> fmt::Result {
        write!(
            f,
            " {:02x} {:x}",
            rules::number(self.0),
            rules::yielded_place(self.0)
        )
    }
}

// A whole search: steps from the beginning to the first that is refused, each with the handle at the
// new place, and that one once more.
#[derive(Clone, Copy)]
pub struct Whole<'a> {
    asked: Asked<'a>,
    mask: u16,
    pattern: u16,
}

impl fmt::Display for Whole<'_> {
    // Each step with a comma behind it, and the last one again.
    fn fmt<W: fmt::Write>(&self, f: &mut fmt::Formatter<W>) -> fmt::Result {
        let run = self.asked.run;
        let mut place = 0;
        for _ in run {
            let step = self.asked.step(self.mask, self.pattern, place);
            write!(f, "{step}")?;
            match step.0 {
                Ok(next) => {
                    write!(f, " {:04x},", flash::word(run, next) / 65536)?;
                    place = next;
                }
                Err(_) => {
                    write!(f, ",")?;
                    break;
                }
            }
        }
        let again = self.asked.step(self.mask, self.pattern, place);
        write!(f, " again{again}")
    }
}
