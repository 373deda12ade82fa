// Where a script is taken: the words that can be lent, and where it is printed.
use crate::command::Command;
use crate::cuts::Cuts;
use crate::lent::Lent;
use crate::line::{Line, Loan, NUMBERS};
use rules::Area;
use std::io::Write;

// Where a script is taken. What is lent stays from line to line.
#[derive(Drop)]
pub struct Desk<'a, W> {
    to: W,
    space: &'a mut [u32],
    loan: Loan,
}

impl<'a, W: Write + Drop> Desk<'a, W> {
    // A desk with so much space, of which nothing is lent.
    pub fn new(to: W, space: &'a mut [u32]) -> Desk<'a, W> {
        Desk {
            to,
            space,
            loan: Loan {
                area: Area { pages: 0, words: 0 },
                length: 0,
            },
        }
    }

    // Takes the whole script. Of a last line without an end nothing is made.
    pub fn script(&mut self, text: &[u8]) {
        for line in text.split_inclusive(|&x| x == b'\n') {
            match line.strip_suffix(b"\n") {
                Some(line) => self.line(line),
                None => self.say(line),
            }
        }
    }

    // Writes a text as it is.
    fn say(&mut self, text: &[u8]) {
        let _ = self.to.write_all(text);
    }

    // Takes a line: one that has a `=` is said, of any other the command is made.
    fn line(&mut self, text: &[u8]) {
        self.say(text);
        if text.contains(&b'=') {
            self.say(b"\n");
            return;
        }
        let mut numbers = [0; NUMBERS];
        let line = Line::read(text, &mut numbers);
        if let Some(loan) = line.loan() {
            self.loan = loan;
        }
        self.make(&line);
    }

    // Makes a line's command on what is lent. A mark says that there is too little space.
    fn make(&mut self, line: &Line<'_>) {
        let Loan { area, length } = self.loan;
        let Some(run) = self.space.get_mut(..length) else {
            self.say(b"!\n");
            return;
        };
        let mut lent = Lent { run, area };
        match line.every() {
            Some(request) => {
                let mut cuts = Cuts {
                    to: &mut self.to,
                    request,
                };
                cuts.every(&lent);
            }
            None => single(&mut self.to, &mut lent, line.command(), line.power),
        }
    }
}

// Makes a command, and writes what is answered and the digest of what is lent.
fn single(to: &mut impl Write, lent: &mut Lent<'_>, command: Command<'_>, power: u32) {
    let _ = to.write_all(b":");
    let _ = match command {
        Command::Area => Ok(()),
        Command::Put { place, words } => {
            lent.put(place, words);
            Ok(())
        }
        Command::Tile {
            place,
            step,
            times,
            words,
        } => {
            lent.tile(place, step, times, words);
            Ok(())
        }
        Command::Show { place, count } => write!(to, "{}", lent.words(place, count)),
        Command::Get { handle } => write!(to, "{}", lent.entry(handle)),
        Command::Map { mask, pattern } => write!(to, "{}", lent.map(mask, pattern)),
        Command::Make(request) => write!(to, "{}", lent.make(request, power)),
    };
    let _ = writeln!(to, "{}", lent.digest());
}
