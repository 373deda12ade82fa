// The area of a shape, and its run in the first words of the flash.
//
// Every function here is proved, and none has a `requires`.
ghost use Rattle.std.specs.Prelude.{◌≡◌, ◌+◌, ◌*◌};
ghost use Rattle.rules.specs.Words.{words_of};
ghost use Rattle.frames.specs.Frames.{area_of, run_of};
ghost use Rattle.frames.specs.Shapes.{RunEnd};

use crate::Shape;
use rules::Area;

impl Shape {
    // The area of the shape.
    pub(crate) fn area(self) -> Area
        ensures { result ≡ area_of self }
    {
        Area {
            pages: usize::from(self.pages),
            words: self.size.words(),
        }
    }

    // The words of its pages and of a recovery page.
    fn run_words(self) -> usize
        ensures { result ≡ (self.pages + 1) * words_of self.size }
    {
        (usize::from(self.pages) + 1) * self.size.words()
    }

    // The end of its run, or that of the flash, if it is too short for the run.
    pub(crate) fn run_end(self, flash: &[u32]) -> usize
        ensures { RunEnd self flash.now result }
    {
        flash.len().min(self.run_words())
    }

    // Its run, or as much of it as the flash has.
    pub(crate) fn run_of(self, flash: &[u32]) -> &[u32]
        ensures { result.now ≡ run_of self flash.now }
    {
        &flash[..self.run_end(flash)]
    }
}
