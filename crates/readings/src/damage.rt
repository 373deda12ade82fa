// Each cause of DAMAGED, on areas of three pages: one word of a sound area is wrong.
use crate::bench::Bench;
use crate::image::{BLANK, SEAL};
use std::io::Write;

// Metadata of pages: FFFF0003, FFFF0103 and FFFF0203 are right.
fn metadata(bench: &mut Bench<impl Write>) {
    bench.each_changed(&[
        (0, 0, 0x1010_0409),
        (0, 0, BLANK),
        (1, 0, 0x0000_0000),
        (2, 0, 0x0804_1010), // bytes in the other order
        (0, 1, 0xFFFF_0103), // another index
        (1, 1, 0xFFFF_0003),
        (2, 1, 0xFFFF_0303),
        (0, 1, 0xFFFF_0002), // another count
        (2, 1, 0xFFFF_0204),
        (1, 1, 0xFFFF_0301), // index and count the other way round
        (1, 1, BLANK),
        (1, 1, 0x7FFF_0103), // another upper half
    ]);
}

// Words in place of page 0's seal that are neither header nor seal nor blank.
fn headers(bench: &mut Bench<impl Write>) {
    bench.each_changed(&[
        (0, 8, 0x0013_0000), // length 0
        (0, 8, 0x0013_0022), // length 34
        (0, 8, 0x0013_0101), // length 257
        (0, 8, 0x0013_FFFF), // length FFFF
        (0, 8, 0x0000_0000), // invalidated, length 0
        (0, 8, 0x0000_0022), // invalidated, length 34
        (0, 8, 0x7F00_0001), // handle 7F00
        (0, 8, 0x7FFF_0005), // handle 7FFF, no seal
        (0, 8, 0x8000_0001), // handle 8000
        (0, 8, 0xFFFF_0001), // handle FFFF, not blank
        (0, 8, 0x7FFF_FFFE), // nearly a seal
        (0, 8, 0xFFFF_FFFE), // nearly blank
    ]);
}

// The like in place of a header that others stand behind; and handle 7F00 on an empty page.
fn headers_before(bench: &mut Bench<impl Write>) {
    bench.each_changed(&[
        (0, 2, 0x0012_0000), // length 0
        (0, 4, 0x0000_0022), // length 34
        (0, 4, 0x7F00_0003), // handle 7F00
        (2, 2, SEAL),
        (2, 5, BLANK),
        (2, 2, 0x0001_0002), // the next header is data
        (1, 2, 0x7F00_0001),
    ]);
}

// Words behind a seal.
fn behind_seal(bench: &mut Bench<impl Write>) {
    let last = bench.image.back(1);
    bench.each_changed(&[
        (0, 9, 0x0000_0000),
        (0, 9, 0x0013_0001), // an entry
        (1, 3, SEAL), // another seal
        (2, 40, 0xFFFF_FFFE),
        (0, last, 0x0000_0000),
        (2, last, SEAL),
    ]);
}

// Words behind the end of page 0, which is torn.
fn behind_torn(bench: &mut Bench<impl Write>) {
    let last = bench.image.back(1);
    bench.each_changed(&[
        (0, 9, 0x0000_0000),
        (0, 9, SEAL),
        (0, 40, 0x0013_0001),
        (0, last, 0xFFFF_FFFE),
    ]);
}

// One wrong word on a page that was sealed.
fn sealed(bench: &mut Bench<impl Write>) {
    bench.both(); // sound
    metadata(bench);
    headers(bench);
    headers_before(bench);
    behind_seal(bench);
}

// One wrong word on a page that was torn: page 0 with entries, page 1 without.
fn torn(bench: &mut Bench<impl Write>) {
    bench.image.set(0, 8, BLANK);
    behind_torn(bench);
    bench.image.set(0, 8, SEAL);
    bench.image.set(1, 2, BLANK);
    bench.changed(1, 3, SEAL);
}

// Full pages: another header in place of the seal.
fn full(bench: &mut Bench<impl Write>) {
    let seal = bench.image.back(1);
    bench.both(); // sound: 33 words end at P - 2
    bench.changed(2, seal, 0x0300_0001); // one word at P - 1
    bench.changed(0, seal, 0x0000_0001);
}

// Entries on page 2 that end behind word P - 2. Its last has 33 words, from P - 34 on; it gets one
// word or 32, and another follows.
fn overrun(bench: &mut Bench<impl Write>) {
    let early = bench.image.back(34);
    let late = bench.image.back(33);
    let last = bench.image.back(2);
    bench.image.set(2, early, 0x0300_0001);
    bench.changed(2, late, 0x0301_0021); // 33 words to P - 1
    bench.changed(2, late, 0x0301_0020); // sound: 32 words to P - 2
    bench.image.set(2, early, 0x0300_0020);
    bench.each_changed(&[
        (2, last, 0x0301_0002), // 2 words to P - 1
        (2, last, 0x0301_0021), // 33 words, past the page
        (2, last, 0x0301_0001), // sound: one word at P - 2
    ]);
}

// R where it would be committed for page 2, but for one word.
fn spare(bench: &mut Bench<impl Write>) {
    let last = bench.image.back(1);
    bench.each_changed(&[
        (3, 0, 0x1010_0400),
        (3, 0, BLANK),
        (3, 1, 0xFFFF_0202), // another count
        (3, 1, 0xFFFF_0204),
        (3, 1, 0xFFFF_0303), // names page 3
        (3, 1, 0xFFFF_FF03), // names page 255
        (3, 1, 0xFFFE_0203), // another upper half
        (3, 4, BLANK), // torn
        (3, 4, 0x0013_0001), // torn behind another entry
        (3, 4, 0x7F00_0001), // handle 7F00
        (3, 2, 0x0113_0000), // length 0
        (3, 5, 0x0000_0000), // words behind the seal
        (3, 5, SEAL),
        (3, last, 0x0000_0000),
    ]);
}

// A wrong word on a page that R, committed for page 2, does not name.
fn not_named(bench: &mut Bench<impl Write>) {
    bench.changed(0, 0, 0x0000_0000);
    bench.changed(1, 3, 0x0000_0000);
}

// R with one wrong word, or with nothing but word 1; and wrong pages that it does not name.
fn recovery(bench: &mut Bench<impl Write>) {
    bench.image.sample();
    bench.changed(3, 1, 0xFFFF_0203); // word 1 alone
    bench.changed(3, 1, 0x0000_0000);
    bench.image.commit(2);
    spare(bench);
    not_named(bench);
    bench.image.set(3, 1, BLANK);
    bench.changed(2, 0, 0x0000_0000); // R is unfinished, and names none
}

// All of these.
pub fn all(bench: &mut Bench<impl Write>) {
    bench.title("damaged pages");
    bench.image.sample();
    sealed(bench);
    torn(bench);
    bench.title("damaged at the end");
    bench.image.two_full(0x0011);
    full(bench);
    overrun(bench);
    bench.title("damaged R");
    recovery(bench);
}
