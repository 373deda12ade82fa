// Crafted flash: words that are put into a run one by one. Unlike stores, they set bits as well as
// clear them. A word outside the run is put nowhere.
use crate::show::Asked;
use rules::Area;

// The words of document 01, apart from those that the manager is compiled with: a blank word,
pub const BLANK: u32 = 0xFFFF_FFFF;
// the seal behind a page's entries,
pub const SEAL: u32 = 0x7FFF_FFFF;
// and a page's word 0.
pub const FIRST: u32 = 0x1010_0408;

// The words of the largest image: 255 pages and R, of 1,024 words each.
pub const LARGEST: usize = 262144;

// An entry that is crafted: the handle, the number of data words, and the first of these, from which
// they count up.
pub type Entry = (u16, u8, u32);

// A run of words, the first so many of a space that is lent, and the area that it is crafted as.
#[derive(Drop)]
pub struct Image<'a> {
    space: &'a mut [u32],
    length: usize,
    pub area: Area,
}

impl<'a> Image<'a> {
    // An empty run, at the beginning of a space.
    pub fn new(space: &'a mut [u32]) -> Image<'a> {
        Image {
            space,
            length: 0,
            area: Area { pages: 0, words: 0 },
        }
    }

    // Makes the run a blank one of an area's words, with R, and so many more. It ends with the space
    // at the latest, but none here is longer.
    pub fn blank(&mut self, area: Area, more: usize) {
        let pages = area.pages.saturating_add(1);
        self.length = pages.saturating_mul(area.words).saturating_add(more);
        self.area = area;
        self.run_mut().fill(BLANK);
    }

    // The run.
    pub fn run(&self) -> &[u32] {
        let length = self.length.min(self.space.len());
        &self.space[..length]
    }

    // The run, to be written.
    fn run_mut(&mut self) -> &mut [u32] {
        let length = self.length.min(self.space.len());
        &mut self.space[..length]
    }

    // The run as the area, to be asked.
    pub fn asked(&self) -> Asked<'_> {
        Asked {
            run: self.run(),
            area: self.area,
        }
    }

    // The place of a page's word; R has the index behind the last page's.
    pub fn place(&self, page: u8, word: usize) -> usize {
        usize::from(page)
            .saturating_mul(self.area.words)
            .saturating_add(word)
    }

    // The number that a word so many before a page's end has on the page: 1 gives P - 1.
    pub fn back(&self, words: usize) -> usize {
        self.area.words.saturating_sub(words)
    }

    // The number of pages, as a page's metadata hold it: R's index.
    pub fn count(&self) -> u8 {
        (self.area.pages % 256) as u8
    }

    // The last page's index.
    pub fn last(&self) -> u8 {
        self.count().saturating_sub(1)
    }

    // Word 1 of the metadata of the page with an index.
    pub fn second(&self, page: u8) -> u32 {
        0xFFFF_0000 + u32::from(page) * 256 + u32::from(self.count())
    }

    // Puts a word at a place, and answers the place behind it.
    fn put(&mut self, at: usize, word: u32) -> usize {
        if let Some(old) = self.run_mut().get_mut(at) {
            *old = word;
        }
        at.saturating_add(1)
    }

    // Puts an entry at a place, and answers the place behind it.
    fn put_entry(&mut self, from: usize, entry: Entry) -> usize {
        let (handle, words, first) = entry;
        let header = u32::from(handle) * 65536 + u32::from(words) + 1;
        let mut at = self.put(from, header);
        for count in 0..u32::from(words) {
            at = self.put(at, first.wrapping_add(count));
        }
        at
    }

    // Puts a word at a page's word.
    pub fn set(&mut self, page: u8, at: usize, word: u32) {
        let place = self.place(page, at);
        self.put(place, word);
    }

    // Puts a word at a page's word, and answers the one that stood there.
    pub fn exchange(&mut self, page: u8, at: usize, word: u32) -> u32 {
        let place = self.place(page, at);
        let old = flash::word(self.run(), place);
        self.put(place, word);
        old
    }

    // Puts words from a page's word on.
    pub fn set_all(&mut self, page: u8, from: usize, words: &[u32]) {
        let mut at = self.place(page, from);
        for &word in words {
            at = self.put(at, word);
        }
    }

    // Puts entries, and the seal behind them, from word 2 of a page on.
    pub fn seal(&mut self, page: u8, entries: &[Entry]) {
        let mut at = self.place(page, 2);
        for &entry in entries {
            at = self.put_entry(at, entry);
        }
        self.put(at, SEAL);
    }

    // Makes all words of a page the same.
    pub fn fill_page(&mut self, page: u8, word: u32) {
        let words = self.area.words;
        let from = self.place(page, 0);
        let end = self.place(page, words);
        if let Some(words) = self.run_mut().get_mut(from..end) {
            words.fill(word);
        }
    }

    // Makes the run an area of sealed pages without entries, with R free.
    pub fn format(&mut self) {
        self.run_mut().fill(BLANK);
        for page in 0..self.count() {
            self.set(page, 0, FIRST);
            self.set(page, 1, self.second(page));
            self.seal(page, &[]);
        }
    }

    // Fills the words of a page that are open to entries: a first entry of what 33 leaves of D, then
    // entries of 33 words, the last of which ends at word P - 2, and the seal at P - 1. The first has
    // the handle, the others those behind it, and their data count up from their handles.
    pub fn full_page(&mut self, page: u8, handle: u16) {
        let open = self.back(3);
        let words = (open % 33).saturating_sub(1) as u8;
        let place = self.place(page, 2);
        let mut at = self.put_entry(place, (handle, words, 0));
        for count in 0..(open / 33 % 256) as u16 {
            let next = handle.wrapping_add(count).wrapping_add(1);
            at = self.put_entry(at, (next, 32, u32::from(next)));
        }
        self.put(at, SEAL);
    }

    // An area of three pages of which the first and the last are full, the first from a handle on, the
    // last from 0200 on.
    pub fn two_full(&mut self, handle: u16) {
        self.format();
        self.full_page(0, handle);
        self.full_page(2, 0x0200);
    }

    // An area of three pages with four live entries: 0012 and 7EFF on page 0, with an invalidated
    // entry between them, page 1 empty, 0001 and 0113 on page 2, whose data look like a seal, a header
    // and a blank word.
    pub fn sample(&mut self) {
        self.format();
        self.seal(
            0,
            &[
                (0x0012, 1, 0xA1B2_C3D4),
                (0x0000, 2, 0x7FFF_FFFE),
                (0x7EFF, 0, 0),
            ],
        );
        self.set_all(
            2,
            2,
            &[0x0001_0003, SEAL, 0x0013_0002, 0x0113_0002, BLANK, SEAL],
        );
    }

    // Makes R, if it was free, a committed one that names the page with an index and holds 0113.
    pub fn commit(&mut self, page: u8) {
        let r = self.count();
        self.set(r, 0, FIRST);
        self.set(r, 1, self.second(page));
        self.seal(r, &[(0x0113, 1, 0xBBBB_BBBB)]);
    }
}
