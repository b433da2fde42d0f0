ghost use Rattle.std.specs.Prelude.{◌≡◌, [], length};

use crate::access::{AccessFault, word_at};
use crate::traits::{Memory, Readable};

/// A memory of 64 words of its own.
#[derive(Clone, Copy)]
pub struct OwnWords {
    cells: [u32; 64],

    // To `short` an array is a list of any length, so this says which.
    ghost full: { length cells ≡ 64 },
}

impl OwnWords {
    ghost use Rattle.std.specs.Prelude.{replicate};
    ghost use Rattle.memory.specs.Own.{own_in};

    /// Every word is 0 at first.
    pub fn new() -> OwnWords
        ensures { own_in result ≡ replicate 64 0 }
    {
        OwnWords { cells: [0; 64] }
    }
}

impl Readable for OwnWords {
    ghost use Rattle.memory.specs.Own.{own_in};
    ghost use Rattle.memory.specs.Short.{exactly_short};

    ghost words = { own_in };

    ghost short = { λ s. exactly_short (own_in s) s.full };

    fn size(&self) -> u32 {
        self.cells.len() as u32
    }

    fn read(&self, address: u32) -> Result<u32, AccessFault> {
        word_at(&self.cells, address)
    }
}

impl Memory for OwnWords {
    ghost kept = { λ _. record { roots = []; beyond = [] } };

    fn write(&mut self, address: u32, word: u32) -> Result<(), AccessFault> {
        // By the index: `get_mut` tells a proof too little of the other words.
        if address < self.size() {
            self.cells[address as usize] = word;
            Ok(())
        } else {
            Err(AccessFault::Outside)
        }
    }
}
