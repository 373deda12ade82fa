// The areas that the checks run on: one page, two, three, 254 and 255, of each size.
use crate::bench::Bench;
use crate::image::BLANK;
use crate::{damage, order, places, reads, searches, unready, worked};
use rules::Area;
use std::io::Write;

// The worked cases.
fn cases(bench: &mut Bench<impl Write>) {
    bench.heading();
    worked::case_8(bench);
    worked::case_9(bench);
}

// Every check that needs three pages.
fn three(bench: &mut Bench<impl Write>) {
    reads::all(bench);
    searches::all(bench);
    places::all(bench);
    damage::all(bench);
    unready::all(bench);
    order::all(bench);
}

// Reads and a search over many pages, with an entry on the first page, one on a page in the middle and
// one on the last; and what may be wrong with the last.
fn far(bench: &mut Bench<impl Write>) {
    let last = bench.image.last();
    bench.image.format();
    bench.image.seal(0, &[(0x0012, 1, 0xA1B2_C3D4)]);
    bench.image.seal(127, &[(0x0013, 0, 0)]);
    bench.image.seal(last, &[(0x0014, 32, 0x100)]);
    bench.title("first, middle and last page");
    bench.both();
    bench.reads(&[0x0013, 0x0014]);
    bench.whole(0x0000, 0x0000);
    bench.each_changed(&[
        (last, 0, 0x0000_0000),
        (last, 1, 0xFFFF_0000), // another count
        (last, 35, BLANK), // torn
        (last, 2, 0x0012_0021), // 0012 twice
    ]);
}

// What R may name: the last page, sound or not, and none behind it. Behind the last of 255 pages word
// 1 of R would be blank, and R unfinished.
fn named(bench: &mut Bench<impl Write>) {
    let last = bench.image.last();
    let r = bench.image.count();
    let none = bench.image.second(r);
    bench.title("R names the last page");
    bench.image.format();
    bench.image.commit(last);
    bench.both();
    bench.each_changed(&[
        (last, 0, 0x0000_0000),
        (r, 1, none),
        (0, 0, 0x0000_0000), // not named
    ]);
}

// The checks of an area of so many pages.
fn checks(bench: &mut Bench<impl Write>, pages: usize) {
    cases(bench);
    if pages == 1 {
        return;
    }
    worked::case_9_apart(bench);
    match pages {
        2 => {}
        3 => three(bench),
        _ => {
            far(bench);
            named(bench);
        }
    }
}

// All of these.
pub fn all(bench: &mut Bench<impl Write>) {
    for (pages, words) in [
        (1, 64),
        (2, 64),
        (3, 64),
        (254, 64),
        (255, 64),
        (1, 256),
        (2, 256),
        (3, 256),
        (255, 256),
        (1, 1024),
        (2, 1024),
        (3, 1024),
        (255, 1024),
    ] {
        bench.take(Area { pages, words }, 0);
        checks(bench, pages);
    }
}
