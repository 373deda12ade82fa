// What a line asks for.

// Power for any list of stores.
pub const FULL: u32 = 0xFFFF_FFFF;

// A request to the manager, but for its area and its power.
#[derive(Clone, Copy)]
pub enum Request<'a> {
    Format,
    Recover,
    Write { handle: u16, data: &'a [u32] },
    Delete { handle: u16 },
}

// A line's command.
#[derive(Clone, Copy)]
pub enum Command<'a> {
    Area,
    Put {
        place: usize,
        words: &'a [u32],
    },
    Tile {
        place: usize,
        step: usize,
        times: u32,
        words: &'a [u32],
    },
    Show {
        place: usize,
        count: usize,
    },
    Get {
        handle: u16,
    },
    Map {
        mask: u16,
        pattern: u16,
    },
    Make(Request<'a>),
}
