// A run that is an area, to be read: its pages and R, and what each of them is.

ghost use Rattle.std.specs.Prelude.{◌≡◌, ◌≤◌, ◌<◌, length, MatchResult};
ghost use Rattle.rules.specs.Areas.{page, kind, recovery};
ghost use Rattle.rules.specs.Places.{Right};

use rules::{Area, Kind, Recovery, Refusal};

// The words of a run, and the area that they are.
#[derive(Clone, Copy, Drop)]
pub struct Run<'a> {
    pub words: &'a [u32],
    pub area: Area,
    ghost right: { Right area words.now },
}

impl<'a> Run<'a> {
    ghost use Rattle.area.specs.Reading.{Shows, Refuses};

    // The area that a run is. Refused is a wrong geometry.
    #[tactic(auto, using(crate::specs::Checks::geometry_right, crate::specs::Reading::showing))]
    pub fn of(words: &'a [u32], area: Area) -> Result<Run<'a>, Refusal>
        ensures { MatchResult result (Shows area words.now) (Refuses area words.now) }
    {
        if crate::wrong_geometry(words, area) {
            return Err(Refusal::Geometry);
        }
        Ok(Run { words, area })
    }

    // The words of a page; the page behind the last one is R.
    #[tactic(auto, using(crate::specs::Checks::parts))]
    pub fn page(self, index: usize) -> &'a [u32]
        requires { index ≤ self.area.pages }
        ensures { (result.now ≡ page self.entry.area self.entry.words.now index) × (length result.now ≡ self.entry.area.words) }
    {
        let base = index * self.area.words;
        let end = base + self.area.words;
        &self.words[base..end]
    }

    // What a page is.
    pub fn kind(self, index: usize) -> Kind
        requires { index < self.area.pages }
        ensures { result ≡ kind self.entry.area self.entry.words.now index }
    {
        pages::kind_of(self.page(index), self.area.pages as u32, index as u32)
    }

    // What R is. Inlined, so that no run is handed over in memory.
    #[inline(always)]
    pub fn recovery(self) -> Recovery
        ensures { result ≡ recovery self.entry.area self.entry.words.now }
    {
        pages::recovery_of(self.page(self.area.pages), self.area.pages as u32)
    }
}
