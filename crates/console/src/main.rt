//! The console: frames on standard input, one a line, and their answers on standard output, each as
//! its line comes. Of the input 65,536 bytes are read. What a line does is said and proved in the
//! crate `frames`.
//!
//! Every function here is proved to be safe and to end; what is printed is tested. An answer that
//! cannot be written is passed over, and input that cannot be read is at its end.
#![tactic(auto)]

ghost use Rattle.std.specs.Prelude.{◌≤◌, length};
ghost use Rattle.frames.specs.Frames.{bytes};

use frames::{Reply, Said, State};
use std::io::{Read, Write};

// So many bytes of the input are read.
const MOST: usize = 65536;

// The words of the flash.
const WORDS: usize = 16384;

// The bytes of an answer that are printed at once.
const PIECE: usize = 4096;

// What is kept between lines, a buffer for the pieces of an answer, and where they are printed.
#[derive(Drop)]
struct Console<W> {
    to: W,
    state: State,
    flash: [u32; WORDS],
    out: [u8; PIECE],
}

impl<W: Write> Console<W> {
    // Carries a line out and prints its answer.
    fn tell(&mut self, line: &[u8]) {
        let answered = frames::answer(self.state, &mut self.flash, line, &mut self.out);
        self.state = answered.state;
        self.tell_rest(answered.reply, answered.said);
    }

    // Carries out the whole lines of a text from a place on, and gives the place behind them.
    fn tell_lines(&mut self, text: &[u8], from: usize) -> usize
        requires { from ≤ length text.now }
        ensures { result ≤ length text.now }
    {
        let mut at = from;
        loop {
            let end = at + frames::line_length(&text[at..]);
            if end == text.len() {
                return at;
            }
            self.tell(&text[at..end]);
            at = end + 1;
        }
    }

    // Prints an answer piece by piece, from the one that is in the buffer on.
    fn tell_rest(&mut self, reply: Reply, first: Said)
        requires inside { first.count ≤ length self.old.out }
        requires of_answer { first.count ≤ length (bytes reply self.old.flash) }
    {
        let mut said = first;
        let mut at = said.count;
        let _ = self.to.write_all(&self.out[..said.count]);
        while said.more {
            said = frames::say(reply, &self.flash, at, &mut self.out);
            at += said.count;
            let _ = self.to.write_all(&self.out[..said.count]);
        }
    }
}

// Reads what has come of the input, and gives the number of its bytes: 0 where the input ends, cannot
// be read, or has no room.
fn read_into(from: &mut impl Read, text: &mut [u8]) -> usize
    ensures { result ≤ length text.old }
{
    match from.read(text) {
        Ok(count) => count,
        Err(_) => 0,
    }
}

// Reads and answers line by line, until the input ends or the buffer for it is full: each turn but the
// last reads a byte or more. What is left is a line without an end.
fn run(from: &mut impl Read, text: &mut [u8], console: &mut Console<impl Write>) {
    let mut at = 0;
    let mut filled = 0;
    for _ in 0..text.len() {
        let count = read_into(from, &mut text[filled..]);
        if count == 0 {
            break;
        }
        filled += count;
        at = console.tell_lines(&text[..filled], at);
    }
    if at < filled {
        console.tell(&text[at..filled]);
    }
}

fn main(rt: HostRuntime) {
    let mut text = [0; MOST];
    let mut console = Console {
        to: rt.stdout(),
        state: frames::start(),
        flash: [flash::BLANK; WORDS],
        out: [0; PIECE],
    };
    run(&mut rt.stdin(), &mut text, &mut console);
}
