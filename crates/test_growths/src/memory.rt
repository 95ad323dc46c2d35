//! The memory of a call, and which of its allocations fails.
//!
//! The runner makes one allocation fail, by its number since the start of the program. Dummy allocations before a call
//! move this number to an allocation of the call.

use std::alloc::Global;

/// The dummy allocations that are made.
#[derive(Clone, Copy)]
pub enum Turn {
    /// None.
    Plain,
    /// Counts the allocations before the call up to the failing one: `before`.
    CountBefore,
    /// Counts the allocations after the call up to the failing one: `behind`.
    CountBehind,
    /// Makes this number of allocations before the call: a number.
    Spend(u32),
}

impl Turn {
    /// Parses a word. Any unknown word is `Plain`.
    pub fn named(word: &str) -> Turn {
        match word {
            "before" => Turn::CountBefore,
            "behind" => Turn::CountBehind,
            _ => match growths_of(word) {
                Some(growths) => Turn::Spend(growths),
                None => Turn::Plain,
            },
        }
    }
}

fn growths_of(word: &str) -> Option<u32> {
    word.parse().ok()
}

/// The allocator of a call, and its dummy allocations.
#[derive(Drop)]
pub struct Memory {
    alloc: Global,
    turn: Turn,
    counted: Option<u32>,
}

impl Memory {
    pub fn new(alloc: Global, turn: Turn) -> Memory {
        Memory {
            alloc,
            turn,
            counted: None,
        }
    }

    pub fn alloc(&self) -> Global {
        self.alloc
    }

    /// Call this directly before the call.
    pub fn begin(&mut self) {
        match self.turn {
            Turn::CountBefore => self.counted = Some(grow(self.alloc, MOST)),
            Turn::Spend(growths) => {
                grow(self.alloc, growths);
            }
            Turn::Plain | Turn::CountBehind => {}
        }
    }

    /// Call this directly after the call.
    pub fn end(&mut self) {
        if let Turn::CountBehind = self.turn {
            self.counted = Some(grow(self.alloc, MOST));
        }
    }

    /// Returns the number of allocations up to the failing one, if they were counted.
    pub fn counted(&self) -> Option<u32> {
        self.counted
    }
}

// More allocations than are made before the failing one.
const MOST: u32 = 1_000_000;

// Makes `most` allocations, or those before the failing one. Returns their number.
fn grow(alloc: Global, most: u32) -> u32 {
    for made in 0..most {
        if Box::new(alloc, 0_u8).is_err() {
            return made;
        }
    }
    most
}
