//! A run of stores and erases on four words of flash. Behind each it prints the words, what a read
//! one past them gives, the stores that power is left for, and whether a store has been asked for
//! without.
#![tactic(auto)]

use flash::Power;
use std::fmt;

// A step: at a place a word is stored, or from a place on so many words are erased.
#[derive(Clone, Copy)]
enum Step {
    Store(usize, u32),
    Erase(usize, usize),
}

use Step::{Erase, Store};

impl Step {
    // Makes the step, and answers what it leaves of the power.
    fn make(self, run: &mut [u32], power: Power) -> Power {
        match self {
            Store(at, word) => flash::store(run, at, word, power),
            Erase(at, count) => flash::erase(run, at, count, power),
        }
    }
}

// The flash and its power, as they are printed.
#[derive(Clone, Copy)]
struct Shown<'a> {
    run: &'a [u32],
    power: Power,
}

impl fmt::Display for Shown<'_> {
    // The words, that of the place behind them, the stores that are left, and the cut.
    fn fmt<W: fmt::Write>(&self, f: &mut fmt::Formatter<W>) -> fmt::Result {
        for at in 0..=self.run.len() {
            write!(f, "{:08x} ", flash::word(self.run, at))?;
        }
        write!(f, "{:x}", self.power.left)?;
        if self.power.cut {
            write!(f, " cut")?;
        }
        Ok(())
    }
}

fn main(rt: HostRuntime) {
    let mut run = [0x5A5A_0F0F; 4];
    let mut power = Power {
        left: 7,
        cut: false,
    };
    let _ = println!(rt; "{}", Shown { run: &run, power });
    for step in [
        Erase(1, 2),
        Store(1, 0x0012_0002),
        Store(1, 0x7FFF_FFFF),
        Store(4, 0),
        Erase(3, 10),
        Erase(9, 2),
        Store(3, 0x7FFF_FFFF),
        Store(2, 0),
        Erase(0, 4),
    ] {
        power = step.make(&mut run, power);
        let _ = println!(rt; "{}", Shown { run: &run, power });
    }
}
