// What a line does to the console's state and flash, and its reply.
//
// Every function here is proved. `carry` takes any state, flash and line.
ghost use Rattle.std.specs.Prelude.{◌≡◌};
ghost use Rattle.rules.specs.Refusals.{answer_number, answer_stores};
ghost use Rattle.frames.specs.Frames.{plain, read_reply, list_reply, shape_after, bad_frame, requested, read_frame, list_frame, format_frame, carried};
ghost use Rattle.frames.specs.Requests.{meant};
ghost use Rattle.frames.specs.Carrying.{Carries, size_if, shape_if};

use crate::requests::{self, Request};
use crate::{ENOUGH, Frame, Reply, Shape, State, Tail, line};
use rules::{Answer, Made, PageSize, Reading, Refusal, Yielded};

// The number of a line that is no frame.
const BAD_FRAME: u8 = 0x0A;

// The console: what it keeps between lines, and its flash.
#[derive(Drop)]
pub struct Console<'a> {
    pub state: State,
    pub flash: &'a mut [u32],
}

// A reply of number and stores alone.
fn plain(number: u8, stores: u32) -> Reply
    ensures { result ≡ plain number stores }
{
    Reply {
        number,
        stores,
        tail: Tail::Nothing,
    }
}

// The reply to a request that may store.
fn answer_reply(answer: Answer) -> Reply
    ensures { result ≡ plain (answer_number answer) (answer_stores answer) }
{
    plain(rules::answer_number(answer), rules::answer_stores(answer))
}

// The reply to a read.
fn read_reply(reading: Reading) -> Reply
    ensures { result ≡ read_reply reading }
{
    match reading {
        Ok(found) => Reply {
            number: 0,
            stores: 0,
            tail: Tail::Words {
                place: found.place,
                words: found.words,
            },
        },
        Err(why) => plain(why.number(), 0),
    }
}

// The reply to a list, by what a search from the start yields.
fn list_reply(shape: Shape, mask: u16, pattern: u16, yielded: Yielded) -> Reply
    ensures { result ≡ list_reply shape mask pattern yielded }
{
    match yielded {
        Ok(_) => Reply {
            number: 0,
            stores: 0,
            tail: Tail::Handles {
                shape,
                mask,
                pattern,
            },
        },
        Err(refusal) => plain(refusal.number(), 0),
    }
}

// The page size that a format names by a number, if there is one.
fn size_named(size: u8) -> Option<PageSize>
    ensures { result ≡ size_if size }
{
    match size {
        0 => Some(PageSize::Small),
        1 => Some(PageSize::Medium),
        2 => Some(PageSize::Large),
        _ => None,
    }
}

// The area that a format names, if there can be one of so many pages of a size on the console.
fn shape_named(pages: u8, size: u8) -> Option<Shape>
    ensures { result ≡ shape_if pages size }
{
    if !matches!(pages, 1..=15) {
        return None;
    }
    let size = size_named(size)?;
    Some(Shape { pages, size })
}

// The area behind a format: the new one if it was made.
fn shape_after(old: Shape, new: Shape, answer: Answer) -> Shape
    ensures { result ≡ shape_after old new answer }
{
    match answer {
        Ok(Made::Done(_)) => new,
        Ok(Made::Cut(_)) | Err(_) => old,
    }
}

impl Console<'_> {
    // A write, a delete or a recovery: a request with the power that was named for it, which is
    // spent.
    fn request(&mut self, request: Request) -> Reply
        ensures flash { self.new.flash.ghost_name ≡ self.old.flash.ghost_name }
        ensures carries { Carries (requested self.old.state self.old.flash.now (meant request.entry)) result self.new.state self.new.flash.now }
    {
        let State { shape, power } = self.state;
        self.state.power = ENOUGH;
        answer_reply(requests::make(self.flash, shape, request, power))
    }

    // A read.
    fn read(&self, handle: u16) -> Reply
        ensures { Carries (read_frame self.now.state self.now.flash.now handle) result self.now.state self.now.flash.now }
    {
        read_reply(requests::read(self.flash, self.state.shape, handle))
    }

    // A list. One check of the area is made.
    fn list(&self, mask: u16, pattern: u16) -> Reply
        ensures { Carries (list_frame self.now.state self.now.flash.now mask pattern) result self.now.state self.now.flash.now }
    {
        let shape = self.state.shape;
        let yielded = requests::search(self.flash, shape, mask, pattern);
        list_reply(shape, mask, pattern, yielded)
    }

    // A format of so many pages of a size.
    fn format(&mut self, pages: u8, size: u8) -> Reply
        ensures flash { self.new.flash.ghost_name ≡ self.old.flash.ghost_name }
        ensures carries { Carries (format_frame self.old.state self.old.flash.now pages size) result self.new.state self.new.flash.now }
    {
        let Some(new) = shape_named(pages, size) else {
            return plain(Refusal::Geometry.number(), 0);
        };
        let answer = requests::make(self.flash, new, Request::Format, ENOUGH);
        self.state.shape = shape_after(self.state.shape, new, answer);
        answer_reply(answer)
    }

    // Carries a line out.
    #[tactic(auto, using(crate::specs::Carrying::dispatches))]
    pub fn carry(&mut self, line: &[u8]) -> Reply
        ensures flash { self.new.flash.ghost_name ≡ self.old.flash.ghost_name }
        ensures carries { Carries (carried self.old.state self.old.flash.now line.now) result self.new.state self.new.flash.now }
    {
        let mut words = [0u32; 40];
        let Some(frame) = line::read_frame(line, &mut words) else {
            return plain(BAD_FRAME, 0);
        };
        match frame {
            Frame::Write {
                handle,
                words: count,
            } => {
                let data = &words[..count];
                self.request(Request::Write { handle, data })
            }
            Frame::Read(handle) => self.read(handle),
            Frame::Delete(handle) => self.request(Request::Delete(handle)),
            Frame::List { mask, pattern } => self.list(mask, pattern),
            Frame::Recover => self.request(Request::Recover),
            Frame::Power(power) => {
                self.state.power = u32::from(power);
                plain(0, 0)
            }
            Frame::Format { pages, size } => self.format(pages, size),
        }
    }
}
