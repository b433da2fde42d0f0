ghost use Rattle.std.specs.Prelude.{◌≡◌, ◌+◌, length, nat_le};
ghost use Rattle.memory.specs.Words.{write_of, written};
ghost use Rattle.memory.specs.Windows.{check_of, window_over, memory_below};
ghost use Rattle.memory.specs.Windows.{words_below, seen_through, written_through, kept_through};
ghost use Rattle.memory.specs.Short.{window_short};

use crate::access::{AccessFault, WindowFault};
use crate::traits::{Memory, Readable};

/// A part of the memory below: `size` addresses from `base` on, or none where they do not fit.
// A window is made of any base and size, so each access asks whether they fit.
#[derive(Drop)]
pub struct Window<M> {
    below: M,
    base: u32,
    size: u32,
}

/// Are so many addresses, from the base on, all addresses of the memory below?
fn fits<M: Memory>(below: &M, base: u32, size: u32) -> bool
    ensures { result ≡ nat_le (base + size) (length (M.Readable.words below.now)) }
{
    base.checked_add(size)
        .is_some_and(|end| end <= below.size())
}

impl<M: Memory> Window<M> {
    /// Would a window of this base and size have words of the memory below?
    pub fn check(below: &M, base: u32, size: u32) -> Result<(), WindowFault>
        ensures { result ≡ check_of (M.Readable.words below.now) base size }
    {
        if size >= 1 && fits(below, base, size) {
            Ok(())
        } else {
            Err(WindowFault::Misfit)
        }
    }

    /// A window, which has no words where it does not fit.
    pub fn new(below: M, base: u32, size: u32) -> Window<M>
        ensures { result ≡ window_over below base size }
    {
        Window { below, base, size }
    }

    /// The memory below, at the end of the window.
    pub fn into_below(self) -> M
        ensures { result ≡ memory_below self }
    {
        let Window { below, .. } = self;
        below
    }
}

impl<M: Memory> Readable for Window<M> {
    ghost words = { seen_through M.Readable.words };

    ghost short = { λ s. window_short (words_below M.Readable.words s) s.base s.size
        (M.Readable.short (memory_below s)) };

    fn size(&self) -> u32 {
        if fits(&self.below, self.base, self.size) {
            self.size
        } else {
            0
        }
    }

    fn read(&self, address: u32) -> Result<u32, AccessFault> {
        if address < self.size() {
            self.below.read(self.base + address)
        } else {
            Err(AccessFault::Outside)
        }
    }
}

impl<M: Memory> Memory for Window<M> {
    // Base and size stay, and so do the words of the memory below that are not in the window.
    ghost kept = { λ s. kept_through M.Readable.words s M.Memory.kept };

    fn write(&mut self, address: u32, word: u32) -> Result<(), AccessFault>
        ensures value { result ≡ write_of (seen_through M.Readable.words self.old) address }
        ensures after { seen_through M.Readable.words self.new ≡
            written (seen_through M.Readable.words self.old) address word }
        ensures kept { kept_through M.Readable.words self.new M.Memory.kept ≡
            kept_through M.Readable.words self.old M.Memory.kept }
        ensures below { words_below M.Readable.words self.new ≡
            written_through M.Readable.words self.old address word }
    {
        if address < self.size() {
            self.below.write(self.base + address, word)
        } else {
            Err(AccessFault::Outside)
        }
    }
}
