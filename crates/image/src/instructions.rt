ghost use Rattle.std.specs.Prelude.{◌≡◌, ◌≤◌, length};
ghost use Rattle.std.proofs.Common.{arith};
ghost use Rattle.std.proofs.lemmas.List.{length-map};
ghost use Rattle.image.specs.Meaning.{program, left};
ghost use Rattle.image.specs.Reading.{instruction_in};

use crate::images::Image;
use fields::{Elements, Row};
use instruction::Instruction;

impl<'a> Row for Image<'a> {
    type Element = Instruction;

    ghost elements = { program };

    ghost few = { λ i. Prim.omega (arith, length-map i.records.now instruction_in, i.read.0) };

    fn element(&self, index: u16) -> Option<Instruction> {
        self.fetch(u32::from(index))
    }
}

impl<'a> Image<'a> {
    /// Its instructions, that of place 0 first.
    #[tactic(auto, using(crate::proofs::Programs::program_length))]
    pub fn instructions(&self) -> Elements<Image<'a>>
        ensures value { left result ≡ program self.now }
        ensures bound { length (left result) ≤ 4096 }
    {
        Elements::of(*self)
    }
}
