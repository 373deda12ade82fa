// Each cause of UNREADY, on areas of three pages, and areas that are ready though they nearly are
// not.
use crate::bench::Bench;
use crate::image::{BLANK, FIRST, SEAL};
use std::io::Write;

// R unfinished by one word: word 1 is blank, and some other word is not.
fn unfinished(bench: &mut Bench<impl Write>) {
    let last = bench.image.back(1);
    bench.each_changed(&[
        (3, 0, FIRST),
        (3, 0, 0x0000_0000),
        (3, 2, SEAL),
        (3, 2, 0x0000_0000),
        (3, last, 0xFFFF_FFFE),
    ]);
}

// R unfinished, by one word and by many.
fn copying(bench: &mut Bench<impl Write>) {
    bench.image.sample();
    unfinished(bench);
    bench.image.commit(2);
    bench.changed(3, 1, BLANK);
    bench.image.fill_page(3, 0x0000_0000);
    bench.changed(3, 1, BLANK);
}

// R committed, for each page and with other entries than it had.
fn committed(bench: &mut Bench<impl Write>) {
    bench.both(); // names page 0
    bench.each_changed(&[
        (3, 1, 0xFFFF_0103), // names page 1
        (3, 1, 0xFFFF_0203), // names page 2
        (3, 2, 0x0000_0002), // holds an invalidated entry
        (3, 3, SEAL), // holds a seal as data
    ]);
}

// R committed, at first with one entry, then with a handle twice.
fn copied(bench: &mut Bench<impl Write>) {
    bench.image.sample();
    bench.image.commit(0);
    committed(bench);
    bench.image.set(3, 2, 0x0113_0001);
    bench.changed(3, 3, 0x0113_0001);
}

// R committed, full and without entries.
fn full_and_empty(bench: &mut Bench<impl Write>) {
    bench.image.full_page(3, 0x0500);
    bench.both();
    bench.image.fill_page(3, BLANK);
    bench.image.set(3, 0, FIRST);
    bench.image.set(3, 2, SEAL);
    bench.changed(3, 1, 0xFFFF_0003);
}

// Wrong words on the page that a committed R names.
fn named(bench: &mut Bench<impl Write>) {
    bench.each_changed(&[
        (2, 0, 0x0000_0000),
        (2, 1, 0xFFFF_0103), // another index
        (2, 1, 0xFFFF_0202), // another count
        (2, 5, 0x0113_0000), // length 0
        (2, 7, 0x7F00_0001), // handle 7F00
        (2, 8, 0x0000_0000), // behind the seal
        (2, 7, BLANK), // torn
        (2, 5, 0x0012_0002), // 0012 twice
    ]);
}

// The page that a committed R names may hold anything; and another one be torn.
fn anything(bench: &mut Bench<impl Write>) {
    bench.image.sample();
    bench.image.commit(2);
    named(bench);
    bench.image.fill_page(2, 0x0000_0000);
    bench.both();
    bench.image.fill_page(2, BLANK);
    bench.both();
    bench.changed(0, 8, BLANK);
}

// One torn page.
fn torn(bench: &mut Bench<impl Write>) {
    bench.each_changed(&[
        (0, 8, BLANK),
        (1, 2, BLANK), // without entries
        (2, 7, BLANK),
        (0, 8, 0x0013_0021), // behind an entry of 33 words
        (0, 8, 0x7EFE_0001), // behind handle 7EFE
        (0, 8, 0x0000_0021), // behind an invalidated entry
        (2, 5, 0x0113_0004), // behind an entry that holds the seal
    ]);
}

// Two torn pages, and a full one that is torn at its last word.
fn more_torn(bench: &mut Bench<impl Write>) {
    bench.image.set(1, 2, BLANK);
    bench.changed(2, 7, BLANK);
    bench.image.full_page(1, 0x0300);
    bench.both(); // ready
    let last = bench.image.back(1);
    bench.changed(1, last, BLANK);
}

// Handles that are live twice, and some that are not: only one of the entries is live, or what looks
// like the other is data.
fn twice(bench: &mut Bench<impl Write>) {
    bench.each_changed(&[
        (0, 7, 0x0012_0001), // 0012 on page 0
        (2, 5, 0x0012_0002), // 0012 on pages 0 and 2
        (2, 2, 0x7EFF_0003), // 7EFF on pages 0 and 2
        (2, 2, 0x0113_0003), // 0113 on page 2
        (0, 2, 0x0000_0002), // ready: 0012 invalidated
        (0, 7, 0x0000_0001), // ready: two invalidated on page 0
        (2, 5, 0x0000_0002), // ready: invalidated on two pages
        (2, 4, 0x0012_0002), // ready: 0012 in data
        (2, 2, 0x7EFE_0003), // ready: 7EFF and 7EFE
    ]);
}

// A handle that is live in two entries, one behind the other, and in a third; and in one alone.
fn neighbours(bench: &mut Bench<impl Write>) {
    bench.image.set(0, 4, 0x0012_0003);
    bench.both();
    bench.changed(2, 5, 0x0012_0002);
    bench.changed(0, 2, 0x0000_0002); // ready
}

// R unfinished and committed.
fn recovery(bench: &mut Bench<impl Write>) {
    bench.title("R unfinished");
    copying(bench);
    bench.title("R committed");
    copied(bench);
    full_and_empty(bench);
    bench.title("the page that R names");
    anything(bench);
}

// Torn pages and doubles.
fn pages(bench: &mut Bench<impl Write>) {
    bench.title("torn");
    bench.image.sample();
    torn(bench);
    more_torn(bench);
    bench.title("live twice");
    bench.image.sample();
    twice(bench);
    neighbours(bench);
}

// All of these.
pub fn all(bench: &mut Bench<impl Write>) {
    recovery(bench);
    pages(bench);
}
