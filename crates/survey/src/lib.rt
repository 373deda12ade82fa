//! What a request has to know of an area before it stores or answers: whether the area is ready, the
//! entry of a handle, the live words, and the pages that have room for an entry or make it. Promises
//! are the definitions of `rules`.
//!
//! Every function here is proved. `look` and `survey` take any area, run and handle, and ask that an
//! entry can have the length that they are given; `is_full` takes any of them, and asks for as many
//! pages and such ones as an area can have.
#![tactic(auto)]

ghost use Rattle.std.specs.Prelude.{true, ◌≡◌, ◌≤◌, ◌<◌, ◌+◌, ltb};
ghost use Rattle.rules.specs.Words.{words_of, size_of, longest};
ghost use Rattle.rules.specs.Walk.{stop, kind_of};
ghost use Rattle.rules.specs.Refusals.{is_listed, area_quota};
ghost use Rattle.entries.specs.Noting.{unseen};
ghost use Rattle.survey.specs.Passing.{Counted, summary_on, Fitting, Passing, RoomSought, AllPassed};
ghost use Rattle.survey.specs.Walking.{or_if};
ghost use Rattle.survey.specs.Surveying.{looked, surveyed};

mod walk; // walk.rt: the entries of one page

use area::{Run, is_damage, is_free, is_sealed, is_sound, names};
use entries::doubles::{Seen, confirmed};
use rules::{Area, Found, PageSize, Recovery, Refusal};
use walk::{Walk, walk_on, walk_page};

// A page that a search over pages has found, and the place in it where its walk stops.
#[derive(Clone, Copy)]
pub struct FoundPage {
    pub index: usize,
    pub stop: usize,
}

// What is found of a ready area: the live entry of a handle, the live words, the lowest page whose
// seal leaves the room for an entry, and the lowest whose compaction makes it.
#[derive(Clone, Copy)]
pub struct View {
    pub entry: Option<Found>,
    pub live: usize,
    pub room: Option<FoundPage>,
    pub compact: Option<FoundPage>,
}

// What is found of an area whose R is free and whose pages are sealed: what is found of a ready one,
// and the windows of handles in which one may be live twice.
#[derive(Clone, Copy)]
pub struct Sight {
    pub view: View,
    pub windows: u64,
}

// The size of pages of so many words.
fn size_of(words: usize) -> PageSize
    requires { is_listed (size_of words) ≡ true }
    ensures { words_of result ≡ words }
{
    match PageSize::of(words) {
        Some(size) => size,
        None => PageSize::Small,
    }
}

// Whether an entry of so many words is more than the area's quota leaves beside what is live.
pub fn is_full(area: Area, live: usize, needed: usize) -> bool
    requires { (is_listed (size_of area.words) ≡ true) × (area.pages ≤ 255) }
    ensures { result ≡ ltb (area_quota area) (live + needed) }
{
    let quota = area.pages * size_of(area.words).quota();
    if quota < needed {
        return true;
    }
    quota - needed < live
}

// What a survey asks: for the entry of a handle and the room for an entry of so many words, in pages
// of a size beside a recovery page.
#[derive(Clone, Copy)]
struct Asked {
    handle: u32,
    needed: usize,
    size: PageSize,
    recovery: Recovery,
}

// What is known of the pages that were passed: whether each is sealed or torn or named by R, whether
// each is sealed, the live entry of the handle, the live words, and the lowest page whose compaction
// makes the room.
#[derive(Clone, Copy)]
struct Summary {
    sound: bool,
    sealed: bool,
    entry: Option<Found>,
    live: usize,
    compact: Option<FoundPage>,
}

// What a search for room gives: the lowest page whose seal leaves it, how many pages were passed, and
// what is known of these.
#[derive(Clone, Copy)]
struct Sought {
    room: Option<FoundPage>,
    passed: usize,
    summary: Summary,
}

// The page that was found before, or else another, if it passes.
fn lower(found: Option<FoundPage>, passes: bool, page: FoundPage) -> Option<FoundPage>
    ensures { result ≡ or_if found passes page }
{
    if passes {
        return found.or(Some(page));
    }
    found
}

// What is known with the page that was walked.
fn summary_on(
    page: &[u32],
    area: Area,
    asked: Asked,
    before: Summary,
    index: usize,
    walk: Walk,
) -> Summary
    requires { (walk.stop ≡ stop page.now) × (index < area.pages) × (area.pages ≤ 255) × Counted before walk × (asked.needed ≤ longest) }
    ensures { result ≡ summary_on before asked index walk (kind_of area.pages index page.now) }
{
    let kind = pages::kind_at(page, area.pages as u32, index as u32, walk.stop);
    let size = asked.size;
    let recovery = asked.recovery;
    let compact = before.compact;
    let entry = walk.found;
    let live = walk.live;
    let stop = walk.stop;
    let sound = names(recovery, index) | is_sound(kind);
    let sealed = is_sealed(kind);
    let makes = live + asked.needed <= size.open_words();
    Summary {
        sound: before.sound & sound,
        sealed: before.sealed & sealed,
        entry,
        live: before.live + live,
        compact: lower(compact, makes, FoundPage { index, stop }),
    }
}

// Passes a page, from what is known of those before it.
fn pass_page(run: Run, asked: Asked, seen: &mut Seen, before: Summary, index: usize) -> Summary
    requires { Fitting run.area run.words.now asked × (index < run.area.pages) × Passing run.area run.words.now asked index seen.old before }
    ensures { Passing run.entry.area run.entry.words.now asked (index + 1) seen.new result }
{
    let page = run.page(index);
    let entry = before.entry;
    let walk = walk_page(page, index * run.area.words, asked.handle, seen, entry);
    summary_on(page, run.area, asked, before, index, walk)
}

// Searches, page by page and on each from entry to entry, for the lowest page whose seal leaves the
// room, and passes it and those before it on the way; all, if none leaves it. The rule book names the
// nest: it is left by a label at the first page that fits.
fn seek_room(run: Run, asked: Asked, seen: &mut Seen) -> Sought
    requires { Fitting run.area run.words.now asked × (seen.old ≡ unseen) }
    ensures { RoomSought run.entry.area run.entry.words.now asked seen.new result }
{
    let area = run.area;
    let size = asked.size;
    let last = size.last_seal();
    let mut summary = Summary {
        sound: true,
        sealed: true,
        entry: None,
        live: 0,
        compact: None,
    };
    let mut index: usize = 0;
    'pages: loop {
        if area.pages <= index {
            break 'pages Sought {
                room: None,
                passed: index,
                summary,
            };
        }
        let page = run.page(index);
        let base = index * area.words;
        let found = summary.entry;
        let mut walk = Walk {
            stop: 2,
            live: 0,
            found,
        };
        summary = 'entries: loop {
            let stop = walk.stop;
            let Some(words) = pages::length_at(page, stop) else {
                let summary = summary_on(page, area, asked, summary, index, walk);
                if stop + asked.needed <= last {
                    break 'pages Sought {
                        room: Some(FoundPage { index, stop }),
                        passed: index + 1,
                        summary,
                    };
                }
                break 'entries summary;
            };
            walk = walk_on(page, base, asked.handle, seen, walk, words);
        };
        index += 1;
    }
}

// Passes all pages: those up to the one with room, and those behind it.
fn pass_pages(run: Run, asked: Asked, seen: &mut Seen) -> Sought
    requires { Fitting run.area run.words.now asked × (seen.old ≡ unseen) }
    ensures { AllPassed run.entry.area run.entry.words.now asked.handle asked.needed seen.new result }
{
    let sought = seek_room(run, asked, seen);
    let room = sought.room;
    let mut summary = sought.summary;
    for index in sought.passed..run.area.pages {
        summary = pass_page(run, asked, seen, summary, index);
    }
    Sought {
        room,
        passed: run.area.pages,
        summary,
    }
}

// The checks that every request but a format begins with: GEOMETRY, DAMAGED; and, if R is free and
// all pages are sealed, what is found for a handle and for an entry of so many words, else nothing.
pub fn look(flash: &[u32], area: Area, handle: u32, needed: usize) -> Result<Option<Sight>, Refusal>
    requires { needed ≤ longest }
    ensures { result ≡ looked area flash.now handle needed }
{
    let run = Run::of(flash, area)?;
    let recovery = run.recovery();
    if is_damage(recovery) {
        return Err(Refusal::Damaged);
    }
    let size = size_of(run.area.words);
    let asked = Asked {
        handle,
        needed,
        size,
        recovery,
    };
    let mut seen = Seen::new();
    let sought = pass_pages(run, asked, &mut seen);
    let summary = sought.summary;
    if !summary.sound {
        return Err(Refusal::Damaged);
    }
    if !(is_free(recovery) & summary.sealed) {
        return Ok(None);
    }
    let entry = summary.entry;
    let room = sought.room;
    let compact = summary.compact;
    Ok(Some(Sight {
        view: View {
            entry,
            live: summary.live,
            room,
            compact,
        },
        windows: seen.windows,
    }))
}

// The checks that write, read, delete and search begin with: GEOMETRY, DAMAGED, UNREADY; and, if all
// are passed, what is found for a handle and for an entry of so many words.
pub fn survey(flash: &[u32], area: Area, handle: u32, needed: usize) -> Result<View, Refusal>
    requires { needed ≤ longest }
    ensures { result ≡ surveyed area flash.now handle needed }
{
    let Some(sight) = look(flash, area, handle, needed)? else {
        return Err(Refusal::Unready);
    };
    let run = Run { words: flash, area };
    if confirmed(run, sight.windows) {
        return Err(Refusal::Unready);
    }
    Ok(sight.view)
}
