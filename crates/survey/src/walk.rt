// The walk over the entries of one page, which gathers all that a survey has to know of them.
// Promises are the definitions of `rules`, and those of `Walking`.
//
// Every function here is proved, and none stores.
ghost use Rattle.std.specs.Prelude.{◌≡◌, ◌+◌, ◌-◌, ◌≤◌, length};
ghost use Rattle.std.specs.Int.{w64};
ghost use Rattle.std.proofs.Common.{Fits};
ghost use Rattle.survey.specs.Walking.{kept_of, Standing, WalkedOn, Toured};

use entries::doubles::Seen;
use rules::Found;

// What a walk over a page's entries has come to: the place, which is in the end where the walk stops,
// the page's live words before it, and the entry found so far.
#[derive(Clone, Copy)]
pub struct Walk {
    pub stop: usize,
    pub live: usize,
    pub found: Option<Found>,
}

// The entry of so many words at a place of the page that begins at a place of the run. A walk seldom
// comes here: not inlined, it takes no registers of the walk's.
#[cold]
#[inline(never)]
fn own_entry(base: usize, at: usize, words: usize) -> Found
    requires { Fits w64 (base + at) × (1 ≤ words) }
    ensures { result ≡ record { place = base + at; words = words - 1 } }
{
    Found {
        place: base + at,
        words: words - 1,
    }
}

// What was found before, or else the entry of so many words at a place, if it is the wanted one.
fn kept(found: Option<Found>, wanted: bool, base: usize, at: usize, words: usize) -> Option<Found>
    requires { Fits w64 (base + at) × (1 ≤ words) }
    ensures { result ≡ kept_of found wanted (base + at) (words - 1) }
{
    if !wanted {
        return found;
    }
    found.or(Some(own_entry(base, at, words)))
}

// Walks on over the entry of so many words at the place that a walk has come to, in the page that
// begins at a place of the run. Of an invalidated entry nothing is gathered.
pub fn walk_on(
    page: &[u32],
    base: usize,
    handle: u32,
    seen: &mut Seen,
    walk: Walk,
    words: usize,
) -> Walk
    requires { Standing page.now base walk words }
    ensures { WalkedOn page.now base handle seen.old walk words result seen.new }
{
    let at = walk.stop;
    let live = walk.live;
    let found = walk.found;
    let own = pages::handle_of(page[at]);
    let stop = at + words;
    if own == 0 {
        return Walk { stop, live, found };
    }
    seen.note(own);
    let found = kept(found, own == handle, base, at, words);
    Walk {
        stop,
        live: live + words,
        found,
    }
}

// Walks the page that begins at a place of the run, and goes on with what is found of a handle and
// with what is seen of handles.
pub fn walk_page(
    page: &[u32],
    base: usize,
    handle: u32,
    seen: &mut Seen,
    found: Option<Found>,
) -> Walk
    requires { (2 ≤ length page.now) × Fits w64 (base + length page.now) }
    ensures { Toured page.now base handle seen.old found result seen.new }
{
    let mut walk = Walk {
        stop: 2,
        live: 0,
        found,
    };
    while let Some(words) = pages::length_at(page, walk.stop) {
        walk = walk_on(page, base, handle, seen, walk, words);
    }
    walk
}
