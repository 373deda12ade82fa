// Reads of ready areas of three pages.
use crate::bench::Bench;
use crate::image::{BLANK, Image, SEAL};
use std::io::Write;

// Pages that hold live entries alone, from word 2 on, as a compaction leaves them.
fn compacted(image: &mut Image) {
    image.format();
    image.seal(
        0,
        &[
            (0x0A01, 2, 0x1111_0000),
            (0x0A02, 0, 0),
            (0x0A03, 3, 0x3333_0000),
        ],
    );
    image.seal(1, &[(0x0A04, 1, 0x4444_0000)]);
}

// The four handles that these pages hold, and one that they do not.
fn read_compacted(bench: &mut Bench<impl Write>) {
    bench.title("compacted");
    bench.reads(&[0x0A01, 0x0A02, 0x0A03, 0x0A04, 0x0A05]);
}

// The old entry in front of the new one, on the same page: worked case 3, on the last page.
fn replaced(bench: &mut Bench<impl Write>) {
    bench.title("replaced on the same page");
    bench.image.format();
    bench
        .image
        .seal(2, &[(0x0000, 1, 0xA1B2_C3D4), (0x0012, 1, 0x0000_0005)]);
    bench.reads(&[0x0012, 0x0000]);
}

// An invalidated entry on each page, and a live one behind it on the first and the last.
fn replaced_apart(image: &mut Image) {
    image.format();
    image.seal(0, &[(0x0000, 2, 0x0101_0000), (0x0022, 1, 0x2222_0000)]);
    image.seal(1, &[(0x0000, 4, 0x0023_0001)]);
    image.seal(2, &[(0x0000, 1, 0x0202_0000), (0x0021, 2, 0x2121_0000)]);
}

// Handles whose old entry is on an earlier page, on a later page; and one that is deleted.
fn read_apart(bench: &mut Bench<impl Write>) {
    bench.title("replaced on another page, and deleted");
    bench.reads(&[0x0021, 0x0022, 0x0023]);
}

// Entries on page 0 whose data look like the seal, a blank word, zero, and headers.
fn likenesses(image: &mut Image) {
    image.format();
    image.seal(
        0,
        &[
            (0x0031, 1, SEAL),
            (0x0032, 1, BLANK),
            (0x0033, 1, 0x0000_0000),
            (0x0034, 2, BLANK),
            (0x0035, 2, 0x0036_0002),
            (0x0037, 1, 0x0031_0002),
        ],
    );
}

// These handles, and one that stands in data alone.
fn read_likenesses(bench: &mut Bench<impl Write>) {
    bench.title("data like other words");
    bench.reads(&[0x0031, 0x0032, 0x0033, 0x0034, 0x0035, 0x0036, 0x0037]);
}

// Puts a header, seven equal words and the seal from a page's word 2 on.
fn seven(image: &mut Image, page: u8, header: u32, word: u32) {
    image.set_all(
        page,
        2,
        &[header, word, word, word, word, word, word, word, SEAL],
    );
}

// Entries whose data words are seals, blank or zero throughout, on a page each.
fn same_words(bench: &mut Bench<impl Write>) {
    bench.title("data of seals, of blank words, of zeros");
    bench.image.format();
    seven(&mut bench.image, 0, 0x0041_0008, SEAL);
    seven(&mut bench.image, 1, 0x0042_0008, BLANK);
    seven(&mut bench.image, 2, 0x0043_0008, 0x0000_0000);
    bench.reads(&[0x0041, 0x0042, 0x0043]);
    bench.whole(0x0000, 0x0000);
}

// An entry of 32 words between two of none, on page 1.
fn lengths(bench: &mut Bench<impl Write>) {
    bench.title("no data, 32 words, no data");
    bench.image.format();
    bench.image.seal(
        1,
        &[(0x0051, 0, 0), (0x0052, 32, 0x0000_0100), (0x0053, 0, 0)],
    );
    bench.reads(&[0x0051, 0x0052, 0x0053]);
    bench.whole(0x0000, 0x0000);
}

// Two full pages with an empty one between them; on each the last entry ends at word P - 2.
fn full(bench: &mut Bench<impl Write>) {
    bench.title("full, empty, full");
    bench.image.two_full(0x0100);
    bench.reads(&[0x0100, 0x0101, 0x0200, 0x01FF]);
    bench.whole(0x0000, 0x0000);
    bench.whole(0xFF00, 0x0200);
}

// On the last of them the last entry made one word shorter, and an entry of one word behind it, at
// P - 2.
fn last_word(bench: &mut Bench<impl Write>) {
    let longer = bench.image.back(34);
    let last = bench.image.back(2);
    bench.title("up to P - 3, and at P - 2");
    bench.image.set(2, longer, 0x0061_0020);
    bench.image.set(2, last, 0x0062_0001);
    bench.reads(&[0x0061, 0x0062]);
    let places = [bench.image.place(2, longer), bench.image.place(2, last)];
    bench.behind(&places);
}

// Images whose making and reading are apart.
fn made_and_read(bench: &mut Bench<impl Write>) {
    compacted(&mut bench.image);
    read_compacted(bench);
    replaced_apart(&mut bench.image);
    read_apart(bench);
    likenesses(&mut bench.image);
    read_likenesses(bench);
}

// All of these.
pub fn all(bench: &mut Bench<impl Write>) {
    made_and_read(bench);
    replaced(bench);
    same_words(bench);
    lengths(bench);
    full(bench);
    last_word(bench);
}
