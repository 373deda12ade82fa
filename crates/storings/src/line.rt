// A line of the script.
use crate::command::{Command, FULL, Request};
use rules::Area;

// So many numbers of a line count.
pub const NUMBERS: usize = 2048;

// What stands in a line, by the first letter of its name.
#[derive(Clone, Copy)]
enum Name {
    Area,
    Put,
    Tile,
    Show,
    Get,
    Map,
    Format,
    Recover,
    Write,
    Delete,
}

impl From<u8> for Name {
    // Every other letter is a delete's.
    fn from(letter: u8) -> Name {
        match letter {
            b'a' => Name::Area,
            b'p' => Name::Put,
            b't' => Name::Tile,
            b's' => Name::Show,
            b'g' => Name::Get,
            b'm' => Name::Map,
            b'f' => Name::Format,
            b'r' => Name::Recover,
            b'w' => Name::Write,
            _ => Name::Delete,
        }
    }
}

// What the bytes of a token make it: nothing yet, a name, numbers of some kind, the power, or what
// counts for nothing.
#[derive(Clone, Copy, PartialEq, Eq)]
enum Kind {
    Begun,
    Name,
    Number,
    CountUp,
    Repeat,
    Power,
    Other,
}

impl Kind {
    // What a byte that is neither a digit nor a letter makes of a token. Behind a zero byte it begins
    // anew, but for its digits.
    fn of_sign(sign: u8) -> Kind {
        match sign {
            b'+' => Kind::CountUp,
            b'*' => Kind::Repeat,
            b'@' => Kind::Power,
            0 => Kind::Begun,
            _ => Kind::Other,
        }
    }
}

// What is lent from a line on: so many words, as an area.
#[derive(Clone, Copy)]
pub struct Loan {
    pub area: Area,
    pub length: usize,
}

// A line's name, whether every cut is asked for, the power, and the numbers: the first so many of those
// that are lent.
#[derive(Drop)]
pub struct Line<'a> {
    name: Name,
    every: bool,
    pub power: u32,
    numbers: &'a mut [u32],
    count: usize,
}

impl<'a> Line<'a> {
    // Reads a line's tokens, which stand between blanks, and puts its numbers into those that are lent.
    pub fn read(text: &[u8], numbers: &'a mut [u32]) -> Line<'a> {
        let mut line = Line {
            name: Name::Delete,
            every: false,
            power: FULL,
            numbers,
            count: 0,
        };
        for token in text.split(|&x| x == b' ') {
            line.token(token);
        }
        line
    }

    // Takes a token byte by byte: its digits are one number, wherever they stand.
    fn token(&mut self, token: &[u8]) {
        let mut kind = Kind::Begun;
        let mut value = 0;
        for &x in token {
            if b'a' <= x {
                if kind == Kind::Begun {
                    self.letter(x);
                }
                kind = Kind::Name;
            } else if let Some(digit) = char::from(x).to_digit(16) {
                if kind == Kind::Begun {
                    kind = Kind::Number;
                }
                value = value % 0x1000_0000 * 16 + digit;
            } else {
                kind = Kind::of_sign(x);
            }
        }
        self.end(kind, value);
    }

    // Takes the first letter of a name, or of the word that asks for every cut.
    fn letter(&mut self, letter: u8) {
        if letter == b'e' {
            self.every = true;
        } else {
            self.name = Name::from(letter);
        }
    }

    // Takes a whole token with what its digits are.
    fn end(&mut self, kind: Kind, value: u32) {
        match kind {
            Kind::Number => self.push(value),
            Kind::CountUp => self.push_more(value, 1),
            Kind::Repeat => self.push_more(value, 0),
            Kind::Power => self.power = value,
            Kind::Begun | Kind::Name | Kind::Other => {}
        }
    }

    // Puts a number behind the others, if there is room.
    fn push(&mut self, number: u32) {
        if let Some(place) = self.numbers.get_mut(self.count) {
            *place = number;
            self.count += 1;
        }
    }

    // Puts so many numbers behind the others, as far as there is room, each a step more than the one
    // before.
    fn push_more(&mut self, count: u32, step: u32) {
        let mut number = self.rest(0).last().copied().unwrap_or(0);
        for _ in 0..count {
            if self.numbers.len() <= self.count {
                return;
            }
            number = number.wrapping_add(step);
            self.push(number);
        }
    }

    // A number by its index, 0 if there is none.
    fn number(&self, index: usize) -> u32 {
        self.rest(0).get(index).copied().unwrap_or(0)
    }

    // A number of 64 bits by the indices of its halves, the upper one first.
    fn halves(&self, upper: usize, lower: usize) -> usize {
        self.number(upper) as usize * 0x1_0000_0000 + self.number(lower) as usize
    }

    // The lower half of a number, as a handle or a filter.
    fn half(&self, index: usize) -> u16 {
        (self.number(index) % 65536) as u16
    }

    // A number as a place, a step or a count of words.
    fn place(&self, index: usize) -> usize {
        self.number(index) as usize
    }

    // The numbers behind the first few.
    fn rest(&self, few: usize) -> &[u32] {
        self.numbers.get(few..self.count).unwrap_or(&[])
    }

    // What the line lends, if it is of an area.
    pub fn loan(&self) -> Option<Loan> {
        match self.name {
            Name::Area => Some(Loan {
                area: Area {
                    pages: self.halves(3, 0),
                    words: self.halves(4, 1),
                },
                length: self.place(2),
            }),
            _ => None,
        }
    }

    // The request: a delete where the line names no other.
    fn request(&self) -> Request<'_> {
        let handle = self.half(0);
        match self.name {
            Name::Format => Request::Format,
            Name::Recover => Request::Recover,
            Name::Write => Request::Write {
                handle,
                data: self.rest(1),
            },
            _ => Request::Delete { handle },
        }
    }

    // The request of which every cut is asked for, if the line asks for that.
    pub fn every(&self) -> Option<Request<'_>> {
        if self.every {
            Some(self.request())
        } else {
            None
        }
    }

    // What the line asks for.
    pub fn command(&self) -> Command<'_> {
        match self.name {
            Name::Area => Command::Area,
            Name::Put => Command::Put {
                place: self.place(0),
                words: self.rest(1),
            },
            Name::Tile => Command::Tile {
                place: self.place(0),
                step: self.place(1),
                times: self.number(2),
                words: self.rest(3),
            },
            Name::Show => Command::Show {
                place: self.place(0),
                count: self.place(1),
            },
            Name::Get => Command::Get {
                handle: self.half(0),
            },
            Name::Map => Command::Map {
                mask: self.half(0),
                pattern: self.half(1),
            },
            _ => Command::Make(self.request()),
        }
    }
}
