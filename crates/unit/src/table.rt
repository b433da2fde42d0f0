ghost use Rattle.std.specs.Prelude.{◌≡◌};
ghost use Rattle.unit.specs.Tables.{table_of, readable_in};

use crate::outcome::{Fault, Outcome};
use crate::traits::Unit;
use memory::Readable;

/// A unit that looks words up: operation 0 is the word at address a of any readable words.
#[derive(Drop)]
pub struct WordTable<R> {
    words: R,
}

impl<R: Readable> WordTable<R> {
    pub fn new(words: R) -> WordTable<R>
        ensures { readable_in result ≡ words }
    {
        WordTable { words }
    }
}

impl<R: Readable> Unit for WordTable<R> {
    const KNOWN: u16 = 1;

    ghost KNOWN = { 1 };

    ghost table = { λ s operation a _. table_of (R.Readable.words (readable_in s)) operation a };

    fn ask(&self, operation: u8, a: u32, _b: u32) -> Outcome {
        if operation != 0 {
            return Err(Fault { number: 15 });
        }
        self.words.read(a).map_err(|_| Fault { number: 2 })
    }
}
