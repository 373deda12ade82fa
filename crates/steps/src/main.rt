//! The search object as compiled: searches on a small area of two pages, each opened and stepped
//! three times. A line a search: the number and the place that each step yields, and the place
//! reached.
//!
//! Every function here is proved, and none has a `requires`. `three_steps` alone holds a search.
#![tactic(auto)]

ghost use Rattle.std.specs.Prelude.{◌≡◌};
ghost use Rattle.steps.specs.Three.{three_steps};

use rules::{Area, Yielded};
use searching::object::Search;
use std::fmt;

// What three steps of a search yield, and the place that it has reached behind them: a field each, as
// `three_of` has them.
#[derive(Clone, Copy)]
struct Steps {
    first: Yielded,
    second: Yielded,
    third: Yielded,
    reached: usize,
}

// Opens a search behind a place and steps it three times.
fn three_steps(run: &[u32], area: Area, mask: u16, pattern: u16, place: usize) -> Steps
    ensures { result ≡ three_steps run.now area mask pattern place }
{
    let mut search = Search::open(run, area, mask, pattern, place);
    let first = search.step();
    let second = search.step();
    let third = search.step();
    Steps {
        first,
        second,
        third,
        reached: search.place,
    }
}

impl fmt::Display for Steps {
    // The number and the place that each step yielded, and the place reached.
    fn fmt<W: fmt::Write>(&self, f: &mut fmt::Formatter<W>) -> fmt::Result {
        for yielded in [self.first, self.second, self.third] {
            write!(
                f,
                "{:02x} {:04x}  ",
                rules::number(yielded),
                rules::yielded_place(yielded)
            )?;
        }
        write!(f, "{:04x}", self.reached)
    }
}

// The first words of page 0.
const FIRST: [u32; 9] = [
    0x1010_0408,
    0xFFFF_0002,
    0x0012_0002, // at 2: 0012 with a data word
    0xA1B2_C3D4,
    0x0000_0003, // at 4: an invalidated entry with a seal's word as data
    0x7FFF_FFFF,
    0x0000_0000,
    0x0113_0001, // at 7: 0113 without data
    0x7FFF_FFFF,
];

// The first words of page 1.
const SECOND: [u32; 6] = [
    0x1010_0408,
    0xFFFF_0102,
    0x0000_0001, // at 66: an invalidated entry without data
    0x0114_0002, // at 67: 0114 with a data word
    0x0000_0005,
    0x7FFF_FFFF,
];

fn main(rt: HostRuntime) {
    let mut run = [flash::BLANK; 192];
    run[..9].copy_from_slice(&FIRST);
    run[64..70].copy_from_slice(&SECOND);
    for (pages, mask, pattern, place) in [
        // every live entry
        (2, 0x0000, 0x0000, 0),
        // the handles 01xx: two, and no third
        (2, 0xFF00, 0x0100, 0),
        // one handle: asked again, a refused step is refused again
        (2, 0xFFFF, 0x0012, 0),
        // no live entry has handle 0000
        (2, 0xFFFF, 0x0000, 0),
        // behind an invalidated entry, and behind the last entry
        (2, 0x0000, 0x0000, 4),
        (2, 0x0000, 0x0000, 67),
        // behind a data word, behind the seal: no entry's place
        (2, 0x0000, 0x0000, 3),
        (2, 0x0000, 0x0000, 8),
        // the run has the words of two pages and R, not of three: refused before the place is looked at
        (3, 0x0000, 0x0000, 3),
    ] {
        let area = Area { pages, words: 64 };
        let _ = println!(rt; "{}", three_steps(&run, area, mask, pattern, place));
    }
}
