// Document 01's worked cases 8 and 9, on areas of any number of pages.
use crate::bench::Bench;
use std::io::Write;

// Reads the handles of case 8: 0000 and 7F00 are refused, 0001 and 7EFF are not.
fn handles(bench: &mut Bench<impl Write>) {
    bench.reads(&[0x0000, 0x0001, 0x7EFF, 0x7F00]);
}

// Case 8 on an empty area, and on one whose last page holds 0001 and 7EFF.
pub fn case_8(bench: &mut Bench<impl Write>) {
    bench.title("case 8, empty, then both held");
    bench.image.format();
    handles(bench);
    let last = bench.image.last();
    bench.image.seal(last, &[(0x0001, 2, 0xCAFE_0001), (0x7EFF, 1, 0x5EA1_5EA1)]);
    handles(bench);
}

// Makes the searches of case 9: mask FF00 and pattern 0100 yield 0113 alone, pattern 0000 yields 0012
// alone, and mask 0000 both.
fn filters(bench: &mut Bench<impl Write>) {
    bench.whole(0xFF00, 0x0100);
    bench.whole(0xFF00, 0x0000);
    bench.whole(0x0000, 0x0000);
}

// Case 9 with both entries on the last page.
pub fn case_9(bench: &mut Bench<impl Write>) {
    bench.title("case 9");
    bench.image.format();
    let last = bench.image.last();
    bench.image.seal(last, &[(0x0012, 1, 0xA1B2_C3D4), (0x0113, 1, 0x0000_0005)]);
    filters(bench);
}

// Case 9 with 0113 on the first page and 0012 on the last, where these are two pages.
pub fn case_9_apart(bench: &mut Bench<impl Write>) {
    bench.title("case 9, on two pages");
    bench.image.format();
    let last = bench.image.last();
    bench.image.seal(0, &[(0x0113, 1, 0x0000_0005)]);
    bench.image.seal(last, &[(0x0012, 1, 0xA1B2_C3D4)]);
    filters(bench);
}
