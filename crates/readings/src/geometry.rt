// GEOMETRY: numbers of pages, sizes of pages and lengths of the run that do not fit.
use crate::bench::Bench;
use rules::Area;
use std::io::Write;

// The largest number of pages or words that can be asked for.
const MOST: usize = 0xFFFF_FFFF_FFFF_FFFF;

// Asks the first words of the run, for each of these: how many they are, and the pages and the words
// of a page that they are asked as.
fn firsts(bench: &mut Bench<impl Write>, cases: &[(usize, usize, usize)]) {
    for &(length, pages, words) in cases {
        bench.first(length, Area { pages, words });
    }
}

// Runs that are too short or too long for the sample, which stands in front of one word more.
fn lengths(bench: &mut Bench<impl Write>, right: usize, words: usize) {
    firsts(
        bench,
        &[
            (right, 3, words), // right
            (right.saturating_sub(1), 3, words),
            (right.saturating_add(1), 3, words),
            (right.saturating_sub(words), 3, words), // no R
            (0, 3, words),
        ],
    );
}

// Numbers of pages that do not fit the sample.
fn pages(bench: &mut Bench<impl Write>, right: usize, words: usize) {
    firsts(
        bench,
        &[
            (right, 0, words),
            (words, 0, words), // R alone
            (0, 0, words),
            (right, 2, words),
            (right, 4, words),
            (right, 256, words),
            (right, 0x103, words), // 3 in the lower 8 bits, 16 and 32
            (right, 0x1_0003, words),
            (right, 0x1_0000_0003, words),
            (right, MOST, words),
            (0, MOST, words), // one page more is 0, cut to 64 bits
        ],
    );
}

// Numbers whose product, cut to 64 bits, is the run's length. `wrapping` pages and R make 2 to the 64
// words and the sample's.
fn products(bench: &mut Bench<impl Write>, right: usize, wrapping: usize, words: usize) {
    firsts(
        bench,
        &[
            (right, wrapping, words),
            (right, 3, words.saturating_add(0x1_0000_0000)),
            (0, 3, 0x4000_0000_0000_0000),
            (0, 3, MOST),
            (0, MOST, MOST),
        ],
    );
}

// All of these, on the sample.
fn sample(bench: &mut Bench<impl Write>, wrapping: usize) {
    let words = bench.image.area.words;
    let right = bench.image.place(4, 0);
    bench.image.sample();
    lengths(bench, right, words);
    pages(bench, right, words);
    products(bench, right, wrapping, words);
}

// Sizes that no page has, each with a run of its length.
fn sizes(bench: &mut Bench<impl Write>) {
    firsts(
        bench,
        &[
            (0, 1, 0),
            (2, 1, 1),
            (4, 1, 2),
            (64, 1, 32),
            (126, 1, 63),
            (130, 1, 65),
            (256, 1, 128),
            (512, 3, 128),
            (510, 1, 255),
            (514, 1, 257),
            (1024, 1, 512),
            (2046, 1, 1023),
            (2050, 1, 1025),
            (4096, 1, 2048),
        ],
    );
}

// The sample of each size, on a run of four pages and one word; other sizes, on a blank run; and 256
// pages of 64 words on a run of their length.
pub fn all(bench: &mut Bench<impl Write>) {
    bench.title("== geometry");
    for (words, wrapping) in [
        (64, 0x0400_0000_0000_0003),
        (256, 0x0100_0000_0000_0003),
        (1024, 0x0040_0000_0000_0003),
    ] {
        bench.take(Area { pages: 3, words }, 1);
        sample(bench, wrapping);
    }
    let most = Area {
        pages: 256,
        words: 64,
    };
    bench.take(most, 0);
    sizes(bench);
    bench.first(16448, most);
}
