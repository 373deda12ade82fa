//! Reads and searches by the manager as compiled, on flash that is crafted word by word: each line
//! says what was asked and what was answered. What it must print was worked out from document 01, and
//! not from what the manager printed.
#![tactic(auto)]

mod areas;
mod bench;
mod damage;
mod geometry;
mod image;
mod order;
mod places;
mod reads;
mod searches;
mod show;
mod unready;
mod worked;

use bench::Bench;

// All images are crafted in one space of fixed size. There is no heap.
fn main(rt: HostRuntime) {
    let mut space = [image::BLANK; image::LARGEST];
    let mut bench = Bench::new(rt.stdout(), &mut space);
    areas::all(&mut bench);
    geometry::all(&mut bench);
}
