// Handles that are live twice, and the stores that mend it, by a small map of the handles noted: one
// bit for each handle modulo 1,024. One walk over the entries tells in which windows of 1,024 handles
// one may be live twice; a walk for each of these tells whether one is. Promises are the definitions
// of `rules`, and those of `Noting`, which say what the map and what is kept beside it become.
//
// Every function here is proved. Of the public ones `new` asks for nothing, `note` for a handle of 16
// bits, and `confirmed` and `drop_in` for the windows that noting all
// live handles gives. `drop_in` and `drop_doubles` alone store; the others change no word of the flash.
ghost use Rattle.std.specs.Prelude.{true, false, cond, not, ◌&&◌, ◌≡◌, ◌/◌, ◌^◌, ◌<◌, get_or, eqb, IfSome};
ghost use Rattle.std.specs.Option.{ForSome, is_some};
ghost use Rattle.std.specs.Int.Bits.{bit_and, bit_or};
ghost use Rattle.std.proofs.Math.ListN.{set};
ghost use Rattle.rules.specs.Words.{is_live};
ghost use Rattle.rules.specs.Areas.{entries, twice};
ghost use Rattle.rules.specs.Lists.{drop_doubles};
ghost use Rattle.rules.specs.Places.{Right};
ghost use Rattle.area.specs.Holding.{Runs};
ghost use Rattle.entries.specs.Noting.{slot, has, marked, kept, noted, unseen, all_noted, any_handle, beside, blank_map, nothing};
ghost use Rattle.entries.specs.Ahead.{ahead, entries_of, Sound};
ghost use Rattle.entries.specs.Doubles.{drops, put_if};
ghost use Rattle.entries.specs.Repeats.{twice_in, both};
ghost use Rattle.entries.specs.Sweeping.{Windowed};

use crate::walk::{Cursor, Entries, Header};
use area::{Held, Run};
use rules::Area;

// What was seen of handles: a map of those noted, the highest of them, and the windows of 1,024
// handles in which one may have been noted twice, one bit for each.
#[derive(Clone, Copy)]
pub struct Seen {
    map: [u64; 16],
    pub top: u32,
    pub windows: u64,
}

// The number that has one bit set.
fn bit(k: u32) -> u64
    requires { k < 64 }
    ensures { result ≡ 2 ^ k }
{
    1u64 << k
}

// The number that has one bit set, if that is wanted, and else none.
fn bit_if(wanted: bool, k: u32) -> u64
    requires { k < 64 }
    ensures { result ≡ cond wanted (2 ^ k) 0 }
{
    if wanted { bit(k) } else { 0 }
}

// Sets bits of its own in the number that has a handle's bit, and tells whether one of them was set
// before.
fn set_bits(map: &mut [u64; 16], handle: u32, own: u64) -> bool
    ensures before { result ≡ not (eqb (bit_and (get_or map.old (slot handle) 0) own) 0) }
    ensures map { map.new ≡ set map.old (slot handle) (bit_or (get_or map.old (slot handle) 0) own) }
{
    let slot = (handle / 64 % 16) as usize;
    let old = map[slot];
    map[slot] = old | own;
    old & own != 0
}

// Sets the bit of a handle, and tells whether it was set before.
#[tactic(auto, using(crate::specs::Noting::notes))]
fn mark(map: &mut [u64; 16], handle: u32) -> bool
    requires { handle < 65536 }
    ensures before { result ≡ has map.old handle }
    ensures map { map.new ≡ marked map.old true handle }
{
    set_bits(map, handle, bit(handle % 64))
}

// The windows, with that of a handle. A walk seldom comes here: not inlined, it takes no registers
// of the walk's.
#[cold]
#[inline(never)]
fn with_window(windows: u64, handle: u32) -> u64
    requires { handle < 65536 }
    ensures { result ≡ bit_or windows (2 ^ (handle / 1024)) }
{
    windows | bit(handle / 1024)
}

impl Seen {
    // None was noted.
    pub fn new() -> Seen
        ensures { result ≡ unseen }
    {
        Seen {
            map: [0u64; 16],
            top: 0,
            windows: 0,
        }
    }

    // Notes a handle. It may have been noted before if its bit is set and it is not above the highest.
    #[tactic(auto, using(crate::specs::Noting::notes))]
    pub fn note(&mut self, handle: u32)
        requires { handle < 65536 }
        ensures kept { kept self.new ≡ noted self.old.map (kept self.old) true handle }
        ensures map { self.new.map ≡ marked self.old.map true handle }
    {
        let again = mark(&mut self.map, handle);
        if self.top < handle {
            self.top = handle;
            return;
        }
        if again {
            self.windows = with_window(self.windows, handle);
        }
    }
}

// The windows in which a handle may be live twice.
#[tactic(auto, using(crate::specs::Sweeping::sweeps))]
fn suspects(run: Run) -> u64
    ensures { result ≡ (all_noted any_handle blank_map nothing (entries_of run.entry)).windows }
{
    let mut seen = Seen::new();
    for entry in Entries::of(run) {
        if entry.handle != 0 {
            seen.note(entry.handle);
        }
    }
    seen.windows
}

// Sets the bit of a live handle of a window, one handle left aside, and tells whether it was set
// before; of another handle it sets none. It tests by numbers: a branch that goes another way at
// each handle would cost more than setting a bit.
#[tactic(auto, using(crate::specs::Noting::notes))]
fn mark_in(map: &mut [u64; 16], window: u32, aside: u32, handle: u32) -> bool
    requires { handle < 65536 }
    ensures before { result ≡ (is_live handle && both (beside aside) window handle) && has map.old handle }
    ensures map { map.new ≡ marked map.old (is_live handle && both (beside aside) window handle) handle }
{
    let wanted = (handle != 0) & ((handle != aside) & (handle / 1024 == window));
    set_bits(map, handle, bit_if(wanted, handle % 64))
}

// A handle of a window that is live twice, one handle left aside. To leave aside 0 is to leave none
// aside, since no live entry has it. Not inlined, the walk has all registers for itself wherever it is
// called from; it takes a run by its parts, since a `Run` would be handed over in memory.
#[inline(never)]
#[tactic(auto, using(crate::specs::Sweeping::sweeps))]
fn repeated(words: &[u32], area: Area, window: u32, aside: u32) -> Option<u32>
    requires { Right area words.now }
    ensures twice { is_some result ≡ twice_in (both (beside aside) window) (entries area words.now) }
    ensures within { IfSome result (λ h. h / 1024 ≡ window) }
{
    let run = Run { words, area };
    let mut map = [0u64; 16];
    for entry in Entries::of(run) {
        if mark_in(&mut map, window, aside, entry.handle) {
            return Some(entry.handle);
        }
    }
    None
}

// The same of a window in which there may be one, by the windows in which there may be.
#[tactic(auto, using(crate::specs::Sweeping::windows))]
fn repeated_if(run: Run, windows: u64, window: u32, aside: u32) -> Option<u32>
    requires { (windows ≡ (all_noted any_handle blank_map nothing (entries_of run)).windows) × (window < 64) }
    ensures twice { is_some result ≡ twice_in (both (beside aside) window) (entries_of run.entry) }
    ensures within { IfSome result (λ h. h / 1024 ≡ window) }
{
    if windows & bit(window) == 0 {
        return None;
    }
    repeated(run.words, run.area, window, aside)
}

// A handle that is live twice, one handle left aside. It is looked for in the windows in which there
// may be one, from a window on below which there is none, up to the last of these. Below the window of
// the handle that is found there is none either.
#[tactic(auto, using(crate::specs::Sweeping::windows))]
fn doubled(run: Run, windows: u64, start: u32, aside: u32) -> Option<u32>
    requires { (windows ≡ (all_noted any_handle blank_map nothing (entries_of run)).windows) × Windowed (beside aside) (entries_of run) start }
    ensures twice { is_some result ≡ twice_in (beside aside) (entries_of run.entry) }
    ensures below { IfSome result (λ h. Windowed (beside aside) (entries_of run.entry) (h / 1024)) }
{
    for window in start..64 {
        if windows >> window == 0 {
            return None;
        }
        let handle = repeated_if(run, windows, window, aside);
        if handle.is_some() {
            return handle;
        }
    }
    None
}

// Whether some handle is live twice, by the windows in which one may be.
#[tactic(auto, using(crate::specs::Sweeping::confirms))]
pub fn confirmed(run: Run, windows: u64) -> bool
    requires { windows ≡ (all_noted any_handle blank_map nothing (entries_of run)).windows }
    ensures { result ≡ twice (entries_of run.entry) }
{
    doubled(run, windows, 0, 0).is_some()
}

// Whether a handle is live from a cursor on. Where one handle alone may be live twice, no other is
// looked for.
#[tactic(auto, using(crate::specs::Doubles::dropped))]
fn is_behind(run: Run, start: Cursor, handle: u32, only: Option<u32>) -> bool
    requires { Sound run.area run.words.now start }
    ensures { result ≡ drops only handle (ahead run.entry.area run.entry.words.now start) }
{
    match only {
        Some(one) if handle != one => false,
        _ => Entries::from_cursor(run, start).has_live(handle),
    }
}

// Stores to its bare length the header of an entry, if its handle is live from the cursor behind it
// on. It may be known that one handle alone is live twice.
fn drop_doubled(held: &mut Held, entry: Header, behind: Cursor, only: Option<u32>)
    requires { Sound held.old.area held.old.run.now behind × (entry.length < 65536) }
    ensures { Runs (put_if (drops only entry.handle (ahead held.old.area held.old.run.now behind)) entry.place entry.length) held.old held.new }
{
    if is_behind(held.as_run(), behind, entry.handle, only) {
        held.store(entry.place, entry.length as u32);
    }
}

// Stores to its bare length the header of each entry whose handle is live behind it, in area order,
// so that of the live entries of a handle the last one stays. It may be known that one handle alone
// is live twice.
#[tactic(auto, using(crate::specs::Held::held_drops))]
fn drop_each(held: &mut Held, only: Option<u32>)
    requires { ForSome only (λ k. twice_in (beside k) (entries held.old.area held.old.run.now) ≡ false) }
    ensures { Runs (drop_doubles held.old.area held.old.run.now) held.old held.new }
{
    let mut cursor = Cursor::first(held.area);
    while let Some(entry) = cursor.next(held.as_run()) {
        drop_doubled(held, entry, cursor, only);
    }
}

// The same, by the windows in which a handle may be live twice. A second handle is looked for from
// the window of the first on. Inlined, so that no run is handed over in memory.
#[inline(always)]
pub fn drop_in(held: &mut Held, windows: u64)
    requires { windows ≡ (all_noted any_handle blank_map nothing (entries held.old.area held.old.run.now)).windows }
    ensures { Runs (drop_doubles held.old.area held.old.run.now) held.old held.new }
{
    let run = held.as_run();
    let Some(one) = doubled(run, windows, 0, 0) else {
        return;
    };
    let other = doubled(run, windows, one / 1024, one);
    let only = if other.is_none() { Some(one) } else { None };
    drop_each(held, only);
}

// The same, of any area.
pub fn drop_doubles(held: &mut Held)
    ensures { Runs (drop_doubles held.old.area held.old.run.now) held.old held.new }
{
    let windows = suspects(held.as_run());
    drop_in(held, windows);
}
