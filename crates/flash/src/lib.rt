//! Flash words under power: a word store, a page's erase, and a read.
//!
//! Every function here is proved, and none has a `requires`. `store` and `erase` alone change the
//! manager's flash, and without power they change nothing; `fill` makes an erase's words blank.
#![tactic(auto)]

ghost use Rattle.std.specs.Prelude.{◌≡◌, [], ◌∷◌, get_or};
ghost use Rattle.flash.specs.Stores.{put, wipe, wiped, spent, Ran};

// A word of an erased page.
pub const BLANK: u32 = 0xFFFF_FFFF;

// The stores that power is left for, and whether a store has been asked for without. Once noted, a
// cut stays noted. The two stand side by side, since no power left is not yet a cut.
#[derive(Clone, Copy)]
pub struct Power {
    pub left: u32,
    pub cut: bool,
}

impl Power {
    // What one store leaves of it: one store less, or, where none was left, the cut noted.
    fn spend(self) -> Power
        ensures { result ≡ spent self 1 }
    {
        if self.left == 0 {
            Power { left: 0, cut: true }
        } else {
            Power {
                left: self.left - 1,
                cut: self.cut,
            }
        }
    }
}

// Stores word at the place at: of the old word only the bits that word has too stay set. A place
// outside the flash takes the power of a store and changes nothing. Without power it changes
// nothing and notes the cut.
pub fn store(flash: &mut [u32], at: usize, word: u32, power: Power) -> Power
    ensures { Ran (put at word ∷ []) power flash.old result flash.new }
{
    let next = power.spend();
    if power.left == 0 {
        return next;
    }
    if at < flash.len() {
        flash[at] = flash[at] & word;
    }
    next
}

// Erases count words from the place at on, as far as there are any, as one store. Without power it
// changes nothing and notes the cut.
pub fn erase(flash: &mut [u32], at: usize, count: usize, power: Power) -> Power
    ensures { Ran (wipe at count ∷ []) power flash.old result flash.new }
{
    let rest = power.spend();
    if 0 < power.left {
        fill(flash, at, count);
    }
    rest
}

// Sets count words from the place at on to FFFFFFFF, as far as there are any. `erase` alone calls
// it.
fn fill(flash: &mut [u32], at: usize, count: usize)
    ensures { flash.new ≡ wiped flash.old at count }
{
    let start = at.min(flash.len());
    let end = at.saturating_add(count).min(flash.len());
    flash[start..end].fill(BLANK);
}

// The word at the place at, 0 outside the flash.
pub fn word(flash: &[u32], at: usize) -> u32
    ensures { result ≡ get_or flash.now at 0 }
{
    if at < flash.len() { flash[at] } else { 0 }
}
