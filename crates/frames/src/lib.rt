//! The console's lines: a frame from a line's bytes, what it does to the console's state and flash,
//! and its answer as bytes, a line at a time over lent buffers. Nothing here knows where lines come
//! from or answers go to.
//!
//! Every function here is proved, and no public one has a `requires`: any state, flash, line and
//! buffer is answered.
//!
//! An answer may be longer than the buffer that is lent for it. `answer` carries a line out and puts
//! the first bytes of its answer into the buffer; where it says that there are more, `say` gives them
//! piece by piece from the reply, as long as no other line is carried out in between.
#![tactic(auto)]

mod carrying;
mod line;
mod requests;
mod saying;
mod shapes;

ghost use Rattle.std.specs.Prelude.{◌≡◌, ◌≤◌, length};
ghost use Rattle.frames.specs.Frames.{start, line_length, Responds};

use carrying::Console;
pub use line::read_frame;
use rules::PageSize;
pub use saying::say;

// The power of a frame that none was named for: more than any list of stores needs.
pub const ENOUGH: u32 = 0xFFFF_FFFF;

// An area of the console: so many pages of a size, in the first words of the flash. With no pages it
// is none yet, and every request on it is refused for its geometry.
#[derive(Clone, Copy)]
pub struct Shape {
    pub pages: u8,
    pub size: PageSize,
}

// What the console keeps between lines beside its flash: the area that was formatted, and the power
// for the next frame that is to spend it.
#[derive(Clone, Copy)]
pub struct State {
    pub shape: Shape,
    pub power: u32,
}

// What an answer says behind number and stores: nothing, so many words of the flash behind a place,
// or the handles in an area that a filter lets through.
#[derive(Clone, Copy)]
pub enum Tail {
    Nothing,
    Words {
        place: usize,
        words: usize,
    },
    Handles {
        shape: Shape,
        mask: u16,
        pattern: u16,
    },
}

// An answer: its number, the stores made, and what comes behind. The number is what the line says:
// those of the manager's answers, and one that is the console's alone.
#[derive(Clone, Copy)]
pub struct Reply {
    pub number: u8,
    pub stores: u32,
    pub tail: Tail,
}

// A frame of document 01, "The console". Of a write it has the number of words; the words themselves
// are in a buffer beside it.
#[derive(Clone, Copy, PartialEq, Eq, Debug)]
pub enum Frame {
    Write { handle: u16, words: usize },
    Read(u16),
    Delete(u16),
    List { mask: u16, pattern: u16 },
    Recover,
    Power(u16),
    Format { pages: u8, size: u8 },
}

// What of an answer is in the buffer: so many bytes, and whether there are more behind them. The count
// holds either way, so an enum of the two cases would say it twice.
#[derive(Clone, Copy, PartialEq, Eq, Debug)]
pub struct Said {
    pub count: usize,
    pub more: bool,
}

// What a line was answered: the state behind it, its reply, and what of the answer is in the buffer.
#[derive(Clone, Copy)]
pub struct Answered {
    pub state: State,
    pub reply: Reply,
    pub said: Said,
}

// The state before the first line.
pub fn start() -> State
    ensures { result ≡ start }
{
    State {
        shape: Shape {
            pages: 0,
            size: PageSize::Small,
        },
        power: ENOUGH,
    }
}

// Carries a line out, and puts its answer into the buffer, or the first bytes that it has room for.
pub fn answer(state: State, flash: &mut [u32], line: &[u8], out: &mut [u8]) -> Answered
    ensures { Responds state flash.old line.now out.old result flash.new out.new }
{
    let mut console = Console { state, flash };
    let reply = console.carry(line);
    let Console { state, flash } = console;
    let said = say(reply, flash, 0, out);
    Answered { state, reply, said }
}

// The number of bytes before the first newline of a text, all of them if it has none.
pub fn line_length(text: &[u8]) -> usize
    ensures { (result ≡ line_length text.now) × (result ≤ length text.now) }
{
    text.iter()
        .position(|byte| *byte == b'\n')
        .unwrap_or(text.len())
}
