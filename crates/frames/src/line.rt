// A frame from a line's bytes.
//
// Every function here is proved.
ghost use Rattle.std.specs.Prelude.{true, ◌++◌, ◌≡◌, ◌+◌, ◌*◌, ◌^◌, ◌≤◌, ◌<◌, MatchOption, length, drop};
ghost use Rattle.frames.specs.Frames.{is_digit, all_digits, value, two, four, eight, is_write, shaped, frame_of, line_words, Framed};
ghost use Rattle.frames.specs.Kinds.{number_of_kind, has_digits};
ghost use Rattle.frames.specs.Numbers.{number_of};

use crate::Frame;

// What a frame asks for, by document 01's table.
#[derive(Clone, Copy)]
enum Kind {
    Write,
    Read,
    Delete,
    List,
    Recover,
    Power,
    Format,
}

impl Kind {
    // The kind that has a number, if one has.
    fn of(number: u8) -> Option<Kind>
        ensures { MatchOption result (1 ≤ number → 7 < number) (λ kind. number ≡ number_of_kind kind) }
    {
        match number {
            1 => Some(Kind::Write),
            2 => Some(Kind::Read),
            3 => Some(Kind::Delete),
            4 => Some(Kind::List),
            5 => Some(Kind::Recover),
            6 => Some(Kind::Power),
            7 => Some(Kind::Format),
            _ => None,
        }
    }

    // Whether a frame of the kind can have so many digits.
    fn has_digits(self, count: usize) -> bool
        ensures { result ≡ has_digits self count }
    {
        match self {
            Kind::Write => is_write(count),
            Kind::List => count == 10,
            Kind::Recover => count == 2,
            Kind::Read | Kind::Delete | Kind::Power | Kind::Format => count == 6,
        }
    }
}

// Whether a byte is a capital hexadecimal digit.
fn is_digit(byte: u8) -> bool
    ensures { result ≡ is_digit byte }
{
    matches!(byte, b'0'..=b'9' | b'A'..=b'F')
}

// Whether all bytes of a line are digits.
fn all_digits(line: &[u8]) -> bool
    ensures { result ≡ all_digits line.now }
{
    line.iter().all(|byte| is_digit(*byte))
}

// A digit's number.
fn value(byte: u8) -> u32
    requires { is_digit byte ≡ true }
    ensures { (result ≡ value byte) × (result < 16) }
{
    if byte <= b'9' {
        return u32::from(byte - b'0');
    }
    u32::from(byte - b'A') + 10
}

// The number that up to eight digits make.
#[tactic(auto, using(crate::specs::Numbers::counteds))]
fn number(digits: &[u8]) -> u32
    requires { (all_digits digits.now ≡ true) × (length digits.now ≤ 8) }
    ensures { (result ≡ number_of digits.now) × (result < 16 ^ length digits.now) }
{
    let mut sum = 0;
    for &digit in digits {
        sum = 16 * sum + value(digit);
    }
    sum
}

// The number that the two digits from a place on make.
#[tactic(auto, using(crate::specs::Numbers::parts_of_line))]
fn two(line: &[u8], at: usize) -> u8
    requires { (all_digits line.now ≡ true) × (at + 2 ≤ length line.now) }
    ensures { result ≡ two line.now at }
{
    number(&line[at..at + 2]) as u8
}

// The number that the four digits from a place on make.
#[tactic(auto, using(crate::specs::Numbers::parts_of_line))]
fn four(line: &[u8], at: usize) -> u16
    requires { (all_digits line.now ≡ true) × (at + 4 ≤ length line.now) }
    ensures { result ≡ four line.now at }
{
    number(&line[at..at + 4]) as u16
}

// Whether a write can have so many digits.
fn is_write(count: usize) -> bool
    ensures { result ≡ is_write count }
{
    (6..=326).contains(&count) && (count - 6) % 8 == 0
}

// The frame of a line of digits, by its kind and the number of its digits.
#[tactic(auto, using(crate::specs::Kinds::kinds))]
fn shaped(kind: Kind, line: &[u8]) -> Option<Frame>
    requires { all_digits line.now ≡ true }
    ensures { result ≡ shaped (number_of_kind kind) line.now }
{
    if !kind.has_digits(line.len()) {
        return None;
    }
    match kind {
        Kind::Write => Some(Frame::Write {
            handle: four(line, 2),
            words: (line.len() - 6) / 8,
        }),
        Kind::Read => Some(Frame::Read(four(line, 2))),
        Kind::Delete => Some(Frame::Delete(four(line, 2))),
        Kind::List => Some(Frame::List {
            mask: four(line, 2),
            pattern: four(line, 6),
        }),
        Kind::Recover => Some(Frame::Recover),
        Kind::Power => Some(Frame::Power(four(line, 2))),
        Kind::Format => Some(Frame::Format {
            pages: two(line, 2),
            size: two(line, 4),
        }),
    }
}

// The frame of a line, if it is one.
#[tactic(auto, using(crate::specs::Lines::frames))]
fn frame_of(line: &[u8]) -> Option<Frame>
    ensures { result ≡ frame_of line.now }
{
    if line.len() < 2 || !all_digits(line) {
        return None;
    }
    let kind = Kind::of(two(line, 0))?;
    shaped(kind, line)
}

// Puts the words of a write into a buffer of as many.
#[tactic(auto, using(crate::specs::Numbers::parts_of_line))]
fn put_data(line: &[u8], words: &mut [u32])
    requires { (all_digits line.now ≡ true) × (6 + 8 * length words.old ≤ length line.now) }
    ensures { words.new ≡ line_words line.now (length words.old) }
{
    for (i, word) in words.iter_mut().enumerate() {
        let at = 6 + 8 * i;
        *word = number(&line[at..at + 8]);
    }
}

// The frame of a line, if it is one. The words of a write go to the start of the buffer, if it has
// room for all of them; forty is always enough.
#[tactic(auto, using(crate::specs::Lines::framings))]
pub fn read_frame(line: &[u8], words: &mut [u32]) -> Option<Frame>
    ensures { Framed line.now words.old result words.new }
{
    let frame = frame_of(line)?;
    if let Frame::Write {
        handle: _,
        words: count,
    } = frame
    {
        if count <= words.len() {
            put_data(line, &mut words[..count]);
        }
    }
    Some(frame)
}
