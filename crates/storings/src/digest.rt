// Digests of words, counts and other digests.
use std::fmt;

// Digests are below this prime, 2^43 - 57. As it is above all words, two runs that differ in one word
// have different digests.
const PRIME: u64 = 8796093022151;

// What numbers fold up to, in their order.
#[derive(Clone, Copy)]
pub struct Digest(u64);

impl Digest {
    // The digest of no numbers.
    pub const NONE: Digest = Digest(0);

    // The digest with one number more.
    pub fn with(self, number: u64) -> Digest {
        Digest((self.0 % PRIME * 1664525 + number % PRIME + 1) % PRIME)
    }

    // The digest with another one behind it.
    pub fn then(self, next: Digest) -> Digest {
        self.with(next.0)
    }

    // The digest of all words of a run.
    pub fn of(run: &[u32]) -> Digest {
        run.iter()
            .fold(Digest::NONE, |digest, &word| digest.with(u64::from(word)))
    }
}

impl fmt::Display for Digest {
    // The mark of a digest, and eleven digits.
    fn fmt<W: fmt::Write>(&self, f: &mut fmt::Formatter<W>) -> fmt::Result {
        write!(f, " #{:011x}", self.0)
    }
}
