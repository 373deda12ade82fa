//! Format, recover, write and delete by the manager as compiled: a script on standard input, a
//! command a line. It prints each line, what was answered, and a digest of all words that are lent.
//! What it must print was worked out from document 01, and not from what the manager printed.
//!
//! A line is a name and hexadecimal numbers, in capitals, with one blank between them:
//!
//!     area N P L           from here on the first L words are lent, as an area of N pages of P words;
//!                          two numbers more are the upper halves of N and P
//!     put PLACE WORDS      puts words as they are: unlike stores, they set bits as well
//!     tile PLACE STEP TIMES WORDS
//!                          puts words so many times, each time a step further on
//!     show PLACE COUNT     prints words
//!     format; recover; write HANDLE WORDS; delete HANDLE
//!                          a request: number, and stores in decimal
//!     get HANDLE           a read: number, place, count of words, and the words
//!     map MASK PATTERN     a search: the handles that it yields, each with the words that are read,
//!                          and the last number; without mask and pattern it is for all
//!     every REQUEST        the request on copies, with power for 0 stores, for 1, and so on to the
//!                          first that is not cut, each then recovered, with every cut of that, and
//!                          the request made again: a line for each power (cuts.rt)
//!     = TEXT               says what comes next
//!
//! Only a name's first letter counts. @K is the power of a request, FFFFFFFF if nothing is said. +N
//! stands for N words that count up from the one before, *N for N more of that one. Where the program
//! has no space for so many words, nothing is made, and it prints a `!`.
#![tactic(auto)]

ghost use Rattle.std.specs.Prelude.{◌≤◌, length};

mod command;
mod cuts;
mod desk;
mod digest;
mod lent;
mod line;
mod outcome;
mod show;

use desk::Desk;
use std::io::Read;

// So many bytes of the script are read.
const MOST: usize = 65536;

// There is space for the largest area and a word more.
const SPACE: usize = 262145;

// Reads until the buffer is full, or the input ends or cannot be read, and answers what came.
fn read_full<'a>(from: &mut impl Read, text: &'a mut [u8]) -> &'a [u8]
    ensures { length result.now ≤ length text.old }
{
    let mut filled = 0;
    for _ in 0..text.len() {
        match from.read(&mut text[filled..]) {
            Ok(count) if 0 < count => filled += count,
            _ => break,
        }
    }
    &text[..filled]
}

// Reads the script and takes it, on blank space.
fn main(rt: HostRuntime) {
    let mut text = [0; MOST];
    let script = read_full(&mut rt.stdin(), &mut text);
    let mut space = [flash::BLANK; SPACE];
    Desk::new(rt.stdout(), &mut space).script(script);
}
