// The manager's requests on the area of a shape, in the first words of a flash.
//
// Every function here is proved, and none has a `requires`.
ghost use Rattle.std.specs.Prelude.{◌≡◌};
ghost use Rattle.rules.specs.Search.{read_of, search_of};
ghost use Rattle.frames.specs.Frames.{area_of, run_of};
ghost use Rattle.frames.specs.Requests.{Makes, meant};

use crate::Shape;
use rules::{Answer, Reading, Yielded};

// A request that may store.
#[derive(Clone, Copy)]
pub enum Request<'a> {
    Format,
    Recover,
    Write { handle: u16, data: &'a [u32] },
    Delete(u16),
}

// Makes a request that may store, as far as the power goes.
#[tactic(auto, using(crate::specs::Requests::requests))]
pub fn make(flash: &mut [u32], shape: Shape, request: Request, power: u32) -> Answer
    ensures { Makes shape (meant request.entry) power flash.old result flash.new }
{
    let area = shape.area();
    let end = shape.run_end(flash);
    let run = &mut flash[..end];
    match request {
        Request::Format => manager::format(run, area, power),
        Request::Recover => manager::recover(run, area, power),
        Request::Write { handle, data } => manager::write(run, area, handle, data, power),
        Request::Delete(handle) => manager::delete(run, area, handle, power),
    }
}

// A read.
pub fn read(flash: &[u32], shape: Shape, handle: u16) -> Reading
    ensures { result ≡ read_of (area_of shape) handle (run_of shape flash.now) }
{
    manager::read(shape.run_of(flash), shape.area(), handle)
}

// A search from the start.
pub fn search(flash: &[u32], shape: Shape, mask: u16, pattern: u16) -> Yielded
    ensures { result ≡ search_of (area_of shape) mask pattern 0 (run_of shape flash.now) }
{
    searching::search(shape.run_of(flash), shape.area(), mask, pattern, 0)
}
