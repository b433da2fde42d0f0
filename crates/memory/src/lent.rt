ghost use Rattle.std.specs.Prelude.{◌≡◌, length};
ghost use Rattle.memory.specs.Lent.{lent_in, lent_root, addressed_in, kept_of_lent};
ghost use Rattle.memory.specs.Short.{take_short};

use crate::access::{AccessFault, word_at};
use crate::traits::{Memory, Readable};

/// A memory over the caller's words: the first 65,536 of them, where there are more.
#[derive(Drop)]
pub struct LentWords<'a> {
    cells: &'a mut [u32],
}

impl<'a> LentWords<'a> {
    pub fn new(cells: &'a mut [u32]) -> LentWords<'a>
        ensures words { lent_in result ≡ cells.old }
        ensures root { lent_root result ≡ cells.entry.ghost_name }
    {
        LentWords { cells }
    }

    /// The words that have an address.
    fn addressed(&self) -> &[u32]
        ensures { result.now ≡ addressed_in self.now }
    {
        let end = self.cells.len().min(65536);
        &self.cells[..end]
    }
}

impl<'a> Readable for LentWords<'a> {
    ghost words = { addressed_in };

    ghost short = { λ s. take_short (lent_in s) };

    fn size(&self) -> u32 {
        self.addressed().len() as u32
    }

    fn read(&self, address: u32) -> Result<u32, AccessFault> {
        word_at(self.addressed(), address)
    }
}

impl<'a> Memory for LentWords<'a> {
    ghost kept = { kept_of_lent };

    fn write(&mut self, address: u32, word: u32) -> Result<(), AccessFault> {
        // By the index, here as in `OwnWords`: to lend a part, or to ask `get_mut`, tells a proof
        // too little of the other words.
        if address < self.size() {
            self.cells[address as usize] = word;
            Ok(())
        } else {
            Err(AccessFault::Outside)
        }
    }
}
