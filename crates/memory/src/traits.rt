ghost use Rattle.std.specs.Prelude.{◌≡◌, ℕ, ◌≤◌, List, length};
ghost use Rattle.memory.specs.Words.{read_of, write_of, written};
ghost use Rattle.memory.specs.Kept.{Kept};

use crate::access::AccessFault;

/// Words that can be read. They mean a list of at most 65,536 words.
pub trait Readable {
    ghost words: { Self → List ℕ };

    // Each implementation gives the proof that its list is short enough. No law, so that clauses
    // can name it, and so that it is known behind a `&dyn Readable`.
    ghost short: { (x : Self) → length (words x) ≤ 65536 };

    fn size(&self) -> u32
        ensures { result ≡ length (words self.now) };

    fn read(&self, address: u32) -> Result<u32, AccessFault>
        ensures { result ≡ read_of (words self.now) address };
}

/// Readable words that can also be written.
pub trait Memory: Readable {
    // What no write changes: by it the owner of lent words knows what these hold after any generic
    // call.
    ghost kept: { Self → Kept };

    fn write(&mut self, address: u32, word: u32) -> Result<(), AccessFault>
        ensures value { result ≡ write_of (Self.Readable.words self.old) address }
        ensures after { Self.Readable.words self.new ≡
            written (Self.Readable.words self.old) address word }
        ensures kept { kept self.new ≡ kept self.old };
}
