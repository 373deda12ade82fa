// Every cut of a request, and every cut of the recovery behind each. There is a line for each power:
// number and stores of the request, and the digest behind it; number and stores of a whole recovery,
// the digest behind that, and one number for the answers of all cut recoveries, of the whole ones that
// follow them, and the digests behind each; then the map; last, number and stores of the same request
// made once more, on what the whole recovery left and with power for all of it, and the digest.
use crate::command::{FULL, Request};
use crate::digest::Digest;
use crate::lent::Lent;
use crate::outcome::Outcome;
use std::io::Write;

// No more words than this are copied.
const COPIED: usize = 4096;

// Runs are cut with power for fewer stores than this.
const POWERS: u32 = 4096;

// Cuts the recovery of what is lent everywhere, on copies, and answers what that folds up to.
fn recoveries(lent: &Lent<'_>) -> Digest {
    let mut space = [0; COPIED];
    let mut digest = Digest::NONE;
    for power in 0..POWERS {
        let mut copy = lent.copied(&mut space);
        let cut = copy.make(Request::Recover, power);
        digest = cut.fold(digest, copy.run);
        let whole = copy.make(Request::Recover, FULL);
        digest = whole.fold(digest, copy.run);
        if !cut.is_cut() {
            break;
        }
    }
    digest
}

// A request of which every cut is made, and where the lines are written.
#[derive(Drop)]
pub struct Cuts<'a, W> {
    pub to: &'a mut W,
    pub request: Request<'a>,
}

impl<W: Write> Cuts<'_, W> {
    // Makes the request with power for 0 stores, for 1, and so on to the first that is not cut. A mark
    // says that so many words are not copied.
    pub fn every(&mut self, lent: &Lent<'_>) {
        if COPIED < lent.run.len() {
            let _ = self.to.write_all(b"!\n");
            return;
        }
        let _ = self.to.write_all(b"\n");
        for power in 0..POWERS {
            if !self.once(lent, power).is_cut() {
                break;
            }
        }
    }

    // Makes the request with so much power on a copy of what is lent, recovers, and makes it again
    // with power for all of it. Writes the line, and answers what the first came to.
    fn once(&mut self, lent: &Lent<'_>, power: u32) -> Outcome {
        let mut space = [0; COPIED];
        let mut copy = lent.copied(&mut space);
        let outcome = copy.make(self.request, power);
        let _ = write!(self.to, "{outcome}{};", copy.digest());
        self.recovered(&mut copy);
        let again = copy.make(self.request, FULL);
        let _ = writeln!(self.to, ";{again}{}", copy.digest());
        outcome
    }

    // Recovers what is lent, and writes what that and its cuts come to, and the map.
    fn recovered(&mut self, lent: &mut Lent<'_>) {
        let cuts = recoveries(lent);
        let outcome = lent.make(Request::Recover, FULL);
        let digest = lent.digest();
        let map = lent.map(0, 0);
        let _ = write!(self.to, "{outcome}{digest}{cuts};{map}");
    }
}
