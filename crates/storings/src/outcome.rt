// What a request comes to.
use crate::digest::Digest;
use rules::Answer;
use std::fmt;

// An answer's number when power did not last.
const CUT: u8 = 8;

// The number and the stores that a request answers.
#[derive(Clone, Copy)]
pub struct Outcome {
    number: u8,
    stores: u32,
}

impl From<Answer> for Outcome {
    // What an answer comes to.
    fn from(answer: Answer) -> Outcome {
        Outcome {
            number: rules::answer_number(answer),
            stores: rules::answer_stores(answer),
        }
    }
}

impl Outcome {
    // Whether power did not last.
    pub fn is_cut(self) -> bool {
        self.number == CUT
    }

    // A digest with the outcome behind it, and with the digest of the run that it left.
    pub fn fold(self, digest: Digest, run: &[u32]) -> Digest {
        digest
            .with(u64::from(self.number))
            .with(u64::from(self.stores))
            .then(Digest::of(run))
    }
}

impl fmt::Display for Outcome {
    // The number in two digits, and the stores in decimal.
    fn fmt<W: fmt::Write>(&self, f: &mut fmt::Formatter<W>) -> fmt::Result {
        write!(f, " {:02x} {}", self.number, self.stores)
    }
}
