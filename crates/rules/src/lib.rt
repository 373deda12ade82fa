//! The types of the manager's public interface: an area's description, the page sizes and the
//! answers. Document 01 as definitions stands in specs/, and speaks of these types.
//!
//! Every function here is proved, and none has a `requires`.
#![tactic(auto)]

ghost use Rattle.std.specs.Prelude.{◌≡◌, ◌≤◌};
ghost use Rattle.rules.specs.Words.{words_of, size_of, open_words, quota, last_seal};
ghost use Rattle.rules.specs.Refusals.{refusal_number, answer_number, answer_stores, number_of, reading_place, reading_words, yielded_place};

// A page's word 0.
pub const META0: u32 = 0x1010_0408;
// The word behind a page's entries.
pub const SEAL: u32 = 0x7FFF_FFFF;
// The first of the special handles, which no entry has.
pub const SPECIAL: u32 = 0x7F00;

// An area: so many pages of so many words each, and behind them the recovery page. Any numbers may
// stand here; GEOMETRY judges them.
#[derive(Clone, Copy, PartialEq, Eq, Debug)]
pub struct Area {
    pub pages: usize,
    pub words: usize,
}

// A page of 64, 256 or 1,024 words.
#[derive(Clone, Copy, PartialEq, Eq, Debug)]
pub enum PageSize {
    Small,
    Medium,
    Large,
}

impl PageSize {
    // The words of a page that no entry takes: the metadata, and one that is left for the seal.
    pub const KEPT: usize = 3;
    // The words of the longest entry, its header among them.
    pub const LONGEST: usize = 33;

    // The page size that has so many words, if one has.
    pub fn of(words: usize) -> Option<PageSize>
        ensures { result ≡ size_of words }
    {
        match words {
            64 => Some(PageSize::Small),
            256 => Some(PageSize::Medium),
            1024 => Some(PageSize::Large),
            _ => None,
        }
    }

    // P, the words of a page.
    pub fn words(self) -> usize
        ensures { (result ≡ words_of self) × (64 ≤ result) × (result ≤ 1024) }
    {
        match self {
            PageSize::Small => 64,
            PageSize::Medium => 256,
            PageSize::Large => 1024,
        }
    }

    // D, the words of a page that are open to entries.
    pub fn open_words(self) -> usize
        ensures { (result ≡ open_words (words_of self)) × (61 ≤ result) × (result ≤ 1021) }
    {
        self.words() - PageSize::KEPT
    }

    // The live words that a page counts for in the area's quota.
    pub fn quota(self) -> usize
        ensures { result ≡ quota (words_of self) }
    {
        self.open_words() - PageSize::LONGEST
    }

    // The last place of a page at which a seal can stand.
    pub fn last_seal(self) -> usize
        ensures { result ≡ last_seal (words_of self) }
    {
        self.words() - 1
    }
}

// What a page is, by its metadata and the end of its walk.
#[derive(Clone, Copy, PartialEq, Eq, Debug)]
pub enum Kind {
    Sealed,
    Torn,
    Neither,
}

// What the recovery page is; a committed one names the index of a page.
#[derive(Clone, Copy, PartialEq, Eq, Debug)]
pub enum Recovery {
    Free,
    Unfinished,
    Committed(usize),
    Damage,
}

// Why a request was refused, by the names of document 01's table.
#[derive(Clone, Copy, PartialEq, Eq, Debug)]
pub enum Refusal {
    Geometry,
    Damaged,
    Unready,
    BadHandle,
    BadLength,
    NotFound,
    NoRoom,
    BadPlace,
}

impl Refusal {
    // Its number in document 01's table.
    pub fn number(self) -> u8
        ensures { result ≡ refusal_number self }
    {
        match self {
            Refusal::Geometry => 1,
            Refusal::Damaged => 2,
            Refusal::Unready => 3,
            Refusal::BadHandle => 4,
            Refusal::BadLength => 5,
            Refusal::NotFound => 6,
            Refusal::NoRoom => 7,
            Refusal::BadPlace => 9,
        }
    }
}

// The stores that a request made: all of its list, or those that the power was given for.
#[derive(Clone, Copy, PartialEq, Eq, Debug)]
pub enum Made {
    Done(u32),
    Cut(u32),
}

// An entry that was found: the place of its header in the run, one word before its data, and the
// number of its data words.
#[derive(Clone, Copy, PartialEq, Eq, Debug)]
pub struct Found {
    pub place: usize,
    pub words: usize,
}

// What a format, a recovery, a write or a delete answers: DONE or CUT with the stores made, or a
// refusal, which made none.
pub type Answer = Result<Made, Refusal>;

// What a read answers: where the entry lies, or a refusal.
pub type Reading = Result<Found, Refusal>;

// What a step of a search yields: the place of the next match's header in the run, or a refusal.
pub type Yielded = Result<usize, Refusal>;

// The number of an answer in document 01's table.
pub fn answer_number(answer: Answer) -> u8
    ensures { result ≡ answer_number answer }
{
    match answer {
        Ok(Made::Done(_)) => 0,
        Ok(Made::Cut(_)) => 8,
        Err(refusal) => refusal.number(),
    }
}

// The stores made, 0 if refused.
pub fn answer_stores(answer: Answer) -> u32
    ensures { result ≡ answer_stores answer }
{
    match answer {
        Ok(Made::Done(made)) | Ok(Made::Cut(made)) => made,
        Err(_) => 0,
    }
}

// The number of what a read answers or a search yields in document 01's table.
pub fn number<T: Copy>(answer: Result<T, Refusal>) -> u8
    ensures { result ≡ number_of answer }
{
    match answer {
        Ok(_) => 0,
        Err(why) => why.number(),
    }
}

// The place of the entry's header in the run, 0 if refused.
pub fn reading_place(reading: Reading) -> usize
    ensures { result ≡ reading_place reading }
{
    reading.map_or(0, |found| found.place)
}

// The number of data words, 0 if refused.
pub fn reading_words(reading: Reading) -> usize
    ensures { result ≡ reading_words reading }
{
    reading.map_or(0, |found| found.words)
}

// The place of the match's header in the run, 0 if refused.
pub fn yielded_place(yielded: Yielded) -> usize
    ensures { result ≡ yielded_place yielded }
{
    yielded.unwrap_or(0)
}
