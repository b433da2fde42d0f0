ghost use Rattle.std.specs.Prelude.{◌≡◌, ◌<◌, ◌≤◌, length};
ghost use Rattle.std.specs.List.{slice_get};
ghost use Rattle.image.specs.Meaning.{program, version_in, handler_in};

use crate::images::Image;
use instruction::Instruction;
use record::Record;

impl<'a> Image<'a> {
    pub fn version(&self) -> u16
        ensures { result ≡ version_in self.now }
    {
        self.version
    }

    /// How many records it has: 1 to 4,096.
    #[tactic(auto, using(crate::proofs::Programs::program_length))]
    pub fn count(&self) -> u16
        ensures value { result ≡ length (program self.now) }
        ensures bound { result ≤ 4096 }
    {
        self.records.len() as u16
    }

    /// The place at which a trap goes on, below the count.
    #[tactic(auto, using(crate::proofs::Programs::program_length))]
    pub fn handler(&self) -> u16
        ensures value { result ≡ handler_in self.now }
        ensures bound { result < length (program self.now) }
    {
        self.handler
    }

    /// The instruction at a place; none at or past the count.
    #[tactic(auto, using(crate::proofs::Programs::program_past, crate::proofs::Programs::program_at))]
    pub fn fetch(&self, place: u32) -> Option<Instruction>
        ensures { result ≡ slice_get (program self.now) place }
    {
        let record = self.records.get(place as usize)?;
        Record::from(*record).instruction().ok()
    }
}
