// Places that a search cannot start behind, on the sample of three pages.
use crate::bench::Bench;
use std::io::Write;

// Makes a step of a search for all, behind each word: a page, and the word's number on it.
fn behind_words(bench: &mut Bench<impl Write>, words: &[(u8, usize)]) {
    for &(page, at) in words {
        let place = bench.image.place(page, at);
        bench.step(0x0000, 0x0000, place);
    }
}

// Words of pages that are no header of an entry.
fn on_pages(bench: &mut Bench<impl Write>) {
    let last = bench.image.back(1);
    behind_words(
        bench,
        &[
            (0, 1), // word 1
            (0, 3), // data
            (0, 5), // data of an invalidated entry
            (0, 6), // data like a seal
            (0, 8), // the seal
            (0, 9), // a blank word behind it
            (0, last),
            (1, 0), // words 0 and 1
            (1, 1),
            (1, 2), // the seal of an empty page
            (1, last),
            (2, 0), // words 0 and 1
            (2, 1),
            (2, 3), // data like a seal
            (2, 4), // data like a header
            (2, 6), // data like a blank word
            (2, 7), // the seal
            (2, last),
        ],
    );
}

// Words of R, and places past the run.
fn past_pages(bench: &mut Bench<impl Write>) {
    let last = bench.image.back(1);
    behind_words(bench, &[(3, 0), (3, 1), (3, 2), (3, last), (4, 0), (4, 2)]);
    bench.behind(&[
        0xFFFF_FFFF,
        0x1_0000_0002, // 2 and 4 in the lower half
        0x1_0000_0004,
        0x8000_0000_0000_0002,
        0xFFFF_FFFF_FFFF_FFFF,
    ]);
}

// All of these.
pub fn all(bench: &mut Bench<impl Write>) {
    bench.title("bad places");
    bench.image.sample();
    on_pages(bench);
    past_pages(bench);
}
