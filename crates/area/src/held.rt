// An area that is lent for storing, with the power that its stores are made with.

ghost use Rattle.std.specs.Prelude.{ℕ, get_or, ◌≤◌};
ghost use Rattle.rules.specs.Places.{Right};

use crate::run::Run;
use flash::Power;
use rules::Area;

// A run that is lent for storing, the area that it is, and the power that is left for its stores.
#[derive(Drop)]
pub struct Held<'a> {
    pub run: &'a mut [u32],
    pub area: Area,
    pub power: Power,
    ghost right: { Right area run.now },
    ghost sized: { (i : ℕ) → get_or run.now i 0 ≤ 0xFFFF_FFFF },
}

impl<'a> Held<'a> {
    ghost use Rattle.std.specs.Prelude.{[], ◌∷◌, ◌≡◌};
    ghost use Rattle.flash.specs.Stores.{put, wipe};
    ghost use Rattle.area.specs.Holding.{Runs};
    ghost use Rattle.area.specs.Reading.{Shows};

    // An area, to be stored to with a power.
    pub fn new(run: &'a mut [u32], area: Area, power: Power) -> Held<'a>
        requires { Right area run.old }
        ensures same { result.run.ghost_name ≡ run.entry.ghost_name }
        ensures held { (result.area ≡ area) × (result.power ≡ power) × (result.run.now ≡ run.old) }
    {
        Held { run, area, power }
    }

    // The words of the run.
    pub fn words(&self) -> &[u32]
        ensures { result.now ≡ self.now.run.now }
    {
        &*self.run
    }

    // The area, to be read.
    #[tactic(auto, using(crate::specs::Reading::showing))]
    pub fn as_run(&self) -> Run
        ensures { Shows self.now.area self.now.run.now result }
    {
        Run {
            words: self.words(),
            area: self.area,
        }
    }

    // Stores a word at a place, as `flash::store` does.
    pub fn store(&mut self, at: usize, word: u32)
        ensures { Runs (put at word ∷ []) self.old self.new }
    {
        self.power = flash::store(self.run, at, word, self.power);
    }

    // Erases so many words from a place on, as `flash::erase` does.
    pub fn erase(&mut self, at: usize, count: usize)
        ensures { Runs (wipe at count ∷ []) self.old self.new }
    {
        self.power = flash::erase(self.run, at, count, self.power);
    }
}
