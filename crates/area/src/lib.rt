//! An area: its geometry, its pages and R, and what each of them is. Promises are the definitions of
//! `rules`. `Run` is a run that is an area, to be read; `Held` is one that is lent for storing, and
//! alone calls the stores of `flash` here.
//!
//! Every function here is proved. A `Run` and a `Held` have a right geometry, which `wrong_geometry`
//! tests of any run; so what looks into a page asks for its index alone, and `Run::of` for nothing.
#![tactic(auto)]

ghost use Rattle.std.specs.Prelude.{◌≡◌};
ghost use Rattle.rules.specs.Walk.{is_sealed, is_sound};
ghost use Rattle.rules.specs.Areas.{is_free, is_damage, names};
ghost use Rattle.rules.specs.Refusals.{wrong_geometry};

mod held;
mod run;

pub use held::Held;
use rules::{Area, Kind, PageSize, Recovery};
pub use run::Run;

// Whether no such area fits the run: the number of pages, the page size or the run's length is wrong.
#[tactic(auto, using(crate::specs::Checks::geometries))]
pub fn wrong_geometry(flash: &[u32], area: Area) -> bool
    ensures { result ≡ wrong_geometry area flash.now }
{
    if !(1..=255).contains(&area.pages) {
        return true;
    }
    match PageSize::of(area.words) {
        None => true,
        Some(size) => flash.len() != (area.pages + 1) * size.words(),
    }
}

// Whether a page is sealed.
pub fn is_sealed(found: Kind) -> bool
    ensures { result ≡ is_sealed found }
{
    found == Kind::Sealed
}

// Whether a page is sealed or torn.
pub fn is_sound(found: Kind) -> bool
    ensures { result ≡ is_sound found }
{
    matches!(found, Kind::Sealed | Kind::Torn)
}

// Whether R is free.
pub fn is_free(found: Recovery) -> bool
    ensures { result ≡ is_free found }
{
    found == Recovery::Free
}

// Whether R is damage.
pub fn is_damage(found: Recovery) -> bool
    ensures { result ≡ is_damage found }
{
    found == Recovery::Damage
}

// Whether R is committed and names a page.
pub fn names(found: Recovery, index: usize) -> bool
    ensures { result ≡ names found index }
{
    found == Recovery::Committed(index)
}
