ghost use Rattle.std.specs.Prelude.{◌≡◌};
ghost use Rattle.memory.specs.Lent.{memory_in, memory_root, kept_of_loan};

use crate::access::AccessFault;
use crate::traits::{Memory, Readable};

/// A memory that is lent: itself a memory, so that a window may lie over it for a while.
#[derive(Drop)]
pub struct Loan<'a, M> {
    below: &'a mut M,
}

impl<'a, M: Memory> Loan<'a, M> {
    pub fn new(below: &'a mut M) -> Loan<'a, M>
        ensures below { memory_in result ≡ below.old }
        ensures root { memory_root result ≡ below.entry.ghost_name }
    {
        Loan { below }
    }
}

impl<'a, M: Memory> Readable for Loan<'a, M> {
    ghost words = { λ s. M.Readable.words (memory_in s) };

    ghost short = { λ s. M.Readable.short (memory_in s) };

    fn size(&self) -> u32 {
        self.below.size()
    }

    fn read(&self, address: u32) -> Result<u32, AccessFault> {
        self.below.read(address)
    }
}

impl<'a, M: Memory> Memory for Loan<'a, M> {
    ghost kept = { λ s. kept_of_loan s M.Memory.kept };

    fn write(&mut self, address: u32, word: u32) -> Result<(), AccessFault> {
        self.below.write(address, word)
    }
}
