// Searches of ready areas of three pages, whole and step by step.
use crate::bench::Bench;
use std::io::Write;

// Whole searches of the sample, which holds 0012, 7EFF, 0001 and 0113 in this order.
fn filters(bench: &mut Bench<impl Write>) {
    for (mask, pattern) in [
        (0x0000, 0x0000), // all
        (0x0000, 0xFFFF), // all: no bit of the pattern counts
        (0xFFFF, 0x0012), // one handle
        (0xFFFF, 0x0113),
        (0xFFFF, 0x7EFF),
        (0xFFFF, 0x0013), // in data alone
        (0xFFFF, 0x0000), // of an invalidated entry
        (0xFFFF, 0x7FFF), // of the seal
        (0xFFFF, 0xFFFF), // of blank words
        (0xFF00, 0x0000), // 0012 and 0001
        (0xFF00, 0x0100),
        (0x00FF, 0x0013),
        (0x00FF, 0xAB12), // bits of the pattern outside the mask
        (0xFF00, 0x7EAB),
        (0x0001, 0x0001), // odd handles
        (0x0001, 0xFFFE), // even handles
        (0x8000, 0x8000), // none
        (0x8000, 0x7FFF), // all
    ] {
        bench.whole(mask, pattern);
    }
}

// Steps of a search for all on the sample, behind live entries, behind an invalidated one, and at the
// end.
fn steps(bench: &mut Bench<impl Write>) {
    let third = bench.image.place(2, 2);
    let last = bench.image.place(2, 5);
    bench.behind(&[
        0, 2, 4, // invalidated
        7, // an empty page follows
        third, last, last,
    ]);
}

// Steps of other searches on the sample.
fn filtered_steps(bench: &mut Bench<impl Write>) {
    for (mask, pattern, place) in [
        (0xFFFF, 0x0012, 2), // behind itself
        (0xFFFF, 0x0113, 2), // behind another
        (0xFFFF, 0x0012, 7), // behind a later one
        (0xFF00, 0x7E00, 4), // behind an invalidated one
        (0xFFFF, 0x0000, 4), // the invalidated one itself
    ] {
        bench.step(mask, pattern, place);
    }
}

// Invalidated entries alone, on the first page and the last.
fn invalidated(bench: &mut Bench<impl Write>) {
    let third = bench.image.place(2, 2);
    bench
        .image
        .seal(0, &[(0x0000, 1, 0x0012_0001), (0x0000, 0, 0)]);
    bench.image.seal(2, &[(0x0000, 32, 0x0012_0001)]);
    bench.whole(0x0000, 0x0000);
    bench.behind(&[2, 4, third]);
}

// All of these, and an area without entries.
pub fn all(bench: &mut Bench<impl Write>) {
    bench.title("searches");
    bench.image.sample();
    filters(bench);
    steps(bench);
    filtered_steps(bench);
    bench.title("no live entries");
    bench.image.format();
    bench.whole(0x0000, 0x0000);
    invalidated(bench);
}
