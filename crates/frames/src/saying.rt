// An answer's bytes, put into a lent buffer from any byte on, as far as the buffer has room.
//
// Every function here is proved, and none has a `requires` but `digits`, which writes eight at most.
// Only the buffer is changed.
ghost use Rattle.std.specs.Prelude.{[], ◌∷◌, ◌≡◌, ◌≤◌, suc, ◌%◌, take, drop};
ghost use Rattle.entries.specs.Ahead.{entries_of};
ghost use Rattle.frames.specs.Frames.{digit, eights, fours, handles, list_handles, tail_bytes, bytes, Says};
ghost use Rattle.frames.specs.Saying.{Wrote, digits, passed};

use crate::{Reply, Said, Shape, Tail};
use area::Run;
use entries::walk::Entries;

// A pen over a lent buffer: so many bytes of the text are still to be passed over, so many bytes of
// the buffer are written, and whether a byte has been left out at the buffer's end, which may come
// after any count of them.
#[derive(Drop)]
struct Pen<'a> {
    out: &'a mut [u8],
    skip: usize,
    used: usize,
    more: bool,
}

impl Pen<'_> {
    // Passes over a byte, or writes it, or leaves it out where the buffer is full.
    fn put(&mut self, byte: u8)
        ensures buffer { self.new.out.ghost_name ≡ self.old.out.ghost_name }
        ensures wrote { Wrote (byte ∷ []) self.old self.new }
    {
        if 0 < self.skip {
            self.skip -= 1;
            return;
        }
        if self.out.len() <= self.used {
            self.more = true;
            return;
        }
        self.out[self.used] = byte;
        self.used += 1;
    }

    // Writes the last so many digits of a number.
    #[tactic(auto, using(crate::specs::Saying::some_digits))]
    fn digits<const COUNT: u32>(&mut self, number: u32)
        requires { COUNT ≤ 8 }
        ensures buffer { self.new.out.ghost_name ≡ self.old.out.ghost_name }
        ensures wrote { Wrote (digits COUNT number) self.old self.new }
    {
        for place in (0..COUNT).rev() {
            self.put(digit(number >> (4 * place)));
        }
    }

    // Writes all words of a list.
    #[tactic(auto, using(crate::specs::Saying::lists))]
    fn words(&mut self, words: &[u32])
        ensures buffer { self.new.out.ghost_name ≡ self.old.out.ghost_name }
        ensures wrote { Wrote (eights words.now) self.old self.new }
    {
        for &word in words {
            self.digits::<8>(word);
        }
    }

    // Writes a handle that is a live one and that a filter lets through.
    #[tactic(auto, using(crate::specs::Saying::one_handle))]
    fn handle(&mut self, handle: u32, mask: u32, pattern: u32)
        ensures buffer { self.new.out.ghost_name ≡ self.old.out.ghost_name }
        ensures wrote { Wrote (passed mask pattern handle) self.old self.new }
    {
        if entries::passes(handle, mask, pattern) {
            self.digits::<4>(handle);
        }
    }

    // Writes the handles in an area that a filter lets through, in area order.
    #[tactic(auto, using(crate::specs::Saying::listings))]
    fn handles(&mut self, run: Run, mask: u32, pattern: u32)
        ensures buffer { self.new.out.ghost_name ≡ self.old.out.ghost_name }
        ensures wrote { Wrote (fours (handles mask pattern (entries_of run.entry))) self.old self.new }
    {
        for entry in Entries::of(run) {
            self.handle(entry.handle, mask, pattern);
        }
    }

    // Writes the handles in the area of a shape that a filter lets through; nothing where the flash
    // has no such area.
    #[tactic(auto, using(crate::specs::Saying::tails))]
    fn listed(&mut self, flash: &[u32], shape: Shape, mask: u16, pattern: u16)
        ensures buffer { self.new.out.ghost_name ≡ self.old.out.ghost_name }
        ensures wrote { Wrote (fours (list_handles shape mask pattern flash.now)) self.old self.new }
    {
        let Ok(run) = Run::of(shape.run_of(flash), shape.area()) else {
            return;
        };
        self.handles(run, u32::from(mask), u32::from(pattern));
    }

    // Writes what an answer says behind number and stores.
    fn tail(&mut self, tail: Tail, flash: &[u32])
        ensures buffer { self.new.out.ghost_name ≡ self.old.out.ghost_name }
        ensures wrote { Wrote (tail_bytes tail flash.now) self.old self.new }
    {
        match tail {
            Tail::Nothing => (),
            Tail::Words { place, words } => self.words(part_of(flash, place, words)),
            Tail::Handles {
                shape,
                mask,
                pattern,
            } => self.listed(flash, shape, mask, pattern),
        }
    }
}

// The last digit of a number.
fn digit(number: u32) -> u8
    ensures { result ≡ digit (number % 16) }
{
    let digit = (number % 16) as u8;
    if digit < 10 {
        b'0' + digit
    } else {
        b'A' + (digit - 10)
    }
}

// So many words of the flash behind a place, or those that it has.
fn part_of(flash: &[u32], place: usize, words: usize) -> &[u32]
    ensures { result.now ≡ take words (drop (suc place) flash.now) }
{
    if flash.len() <= place {
        return &flash[..0];
    }
    let start = place + 1;
    let end = start + words.min(flash.len() - start);
    &flash[start..end]
}

// Puts the bytes of an answer, from a given one on, into the buffer, as many as it has room for; none
// from behind the last byte on. The answer is as the flash is now: what its tail says is read there.
pub fn say(reply: Reply, flash: &[u32], from: usize, out: &mut [u8]) -> Said
    ensures { Says (bytes reply flash.now) from out.old result out.new }
{
    let mut pen = Pen {
        out,
        skip: from,
        used: 0,
        more: false,
    };
    pen.digits::<2>(u32::from(reply.number));
    pen.digits::<4>(reply.stores);
    pen.tail(reply.tail, flash);
    pen.put(b'\n');
    Said {
        count: pen.used,
        more: pen.more,
    }
}
