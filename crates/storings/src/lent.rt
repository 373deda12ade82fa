// The words that are lent, and the area that they are.
use crate::command::Request;
use crate::digest::Digest;
use crate::outcome::Outcome;
use crate::show::{Entry, Map, Words};
use rules::Area;

// Words that are lent as an area.
#[derive(Drop)]
pub struct Lent<'a> {
    pub run: &'a mut [u32],
    pub area: Area,
}

impl Lent<'_> {
    // Makes a request with so much power.
    pub fn make(&mut self, request: Request<'_>, power: u32) -> Outcome {
        let run = &mut *self.run;
        let area = self.area;
        Outcome::from(match request {
            Request::Format => manager::format(run, area, power),
            Request::Recover => manager::recover(run, area, power),
            Request::Write { handle, data } => manager::write(run, area, handle, data, power),
            Request::Delete { handle } => manager::delete(run, area, handle, power),
        })
    }

    // Puts words from a place on, as far as there are any.
    pub fn put(&mut self, place: usize, words: &[u32]) {
        if let Some(places) = self.run.get_mut(place..) {
            for (old, &new) in places.iter_mut().zip(words) {
                *old = new;
            }
        }
    }

    // Puts words so many times, each time a step further on.
    pub fn tile(&mut self, place: usize, step: usize, times: u32, words: &[u32]) {
        let mut at = place;
        for _ in 0..times {
            self.put(at, words);
            at = at.saturating_add(step);
        }
    }

    // A copy in a space, of as many of the words as it has room for.
    pub fn copied<'a>(&self, space: &'a mut [u32]) -> Lent<'a> {
        let length = self.run.len().min(space.len());
        let run = &mut space[..length];
        run.copy_from_slice(&self.run[..length]);
        Lent {
            run,
            area: self.area,
        }
    }

    // The digest of the words.
    pub fn digest(&self) -> Digest {
        Digest::of(self.run)
    }

    // So many words from a place on, to be written.
    pub fn words(&self, place: usize, count: usize) -> Words<'_> {
        Words {
            run: self.run,
            place,
            count,
        }
    }

    // The entry of a handle, to be read and written.
    pub fn entry(&self, handle: u16) -> Entry<'_> {
        Entry {
            run: self.run,
            area: self.area,
            handle,
        }
    }

    // The entries that a filter matches, to be searched for and written.
    pub fn map(&self, mask: u16, pattern: u16) -> Map<'_> {
        Map {
            run: self.run,
            area: self.area,
            mask,
            pattern,
        }
    }
}
