// The order of the checks, on areas of three pages: several things are wrong at once, and the first
// of them is the answer.
use crate::bench::Bench;
use crate::image::{BLANK, SEAL};
use std::io::Write;

// Reads two handles that are none and one that is not held; and searches for that one behind a wrong
// place, a right one and 0.
fn asked(bench: &mut Bench<impl Write>) {
    bench.reads(&[0x0000, 0x7F00, 0x0013]);
    bench.step(0xFFFF, 0x0013, 1);
    bench.step(0xFFFF, 0x0013, 2);
    bench.step(0xFFFF, 0x0013, 0);
}

// The same with one more page than there are.
fn more_pages(bench: &mut Bench<impl Write>) {
    let area = bench.image.area;
    bench.title("and a page too many");
    bench.image.area.pages = area.pages.saturating_add(1);
    asked(bench);
    bench.image.area = area;
}

// A damaged page; then everything besides that makes an area unready: a handle twice, a torn page, an
// unfinished R.
fn damaged_page(bench: &mut Bench<impl Write>) {
    bench.title("damaged page");
    bench.image.set(2, 0, 0x0000_0000);
    asked(bench);
    more_pages(bench);
    bench.title("damaged page, handle twice, torn page, R unfinished");
    bench.image.set(0, 7, 0x0012_0001);
    bench.image.set(1, 2, BLANK);
    bench.image.set(3, 2, 0x0000_0000);
    asked(bench);
}

// Damage of R, and a torn page.
fn damaged_r(bench: &mut Bench<impl Write>) {
    bench.title("damaged R, torn page");
    bench.image.set(1, 2, BLANK);
    bench.image.set(3, 1, 0x0000_0000);
    asked(bench);
}

// A handle twice.
fn twice(bench: &mut Bench<impl Write>) {
    bench.title("handle twice");
    bench.image.set(0, 7, 0x0012_0001);
    asked(bench);
    more_pages(bench);
}

// A torn page; and R unfinished, and committed.
fn to_recover(bench: &mut Bench<impl Write>) {
    bench.title("torn page, R unfinished, R committed");
    bench.image.set(1, 2, BLANK);
    asked(bench);
    bench.image.set(1, 2, SEAL);
    bench.image.set(3, 2, 0x0000_0000);
    asked(bench);
    bench.image.commit(2);
    asked(bench);
}

// A ready area: the same questions, and more handles that are none or not held.
fn ready(bench: &mut Bench<impl Write>) {
    bench.title("ready");
    asked(bench);
    bench.reads(&[0x7F01, 0x7FFF, 0x8000, 0x8012, 0xFFFF, 0x0002, 0x7EFE]);
    more_pages(bench);
}

// All of these.
pub fn all(bench: &mut Bench<impl Write>) {
    bench.image.sample();
    ready(bench);
    damaged_page(bench);
    bench.image.sample();
    damaged_r(bench);
    bench.image.sample();
    twice(bench);
    bench.image.sample();
    to_recover(bench);
}
