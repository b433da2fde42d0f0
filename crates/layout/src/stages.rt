#![tactic(auto, using(crate::proofs::Sets::sets_count, crate::proofs::Sets::set_at, crate::proofs::Above::last_from, crate::proofs::Above::nowhere_from))]

ghost use Rattle.std.specs.Prelude.{◌≡◌, ◌<◌, ◌≤◌, length, slice_index};
ghost use Rattle.layout.specs.Meaning.{sets_in};
ghost use Rattle.layout.specs.Able.{able, LastAble, able_from};

use crate::layouts::Layout;
use crate::stage_sets::number;
use fields::holds;

impl<'a> Layout<'a> {
    /// How many stages it has: 2 to 16.
    pub fn stages(&self) -> usize
        ensures value { result ≡ length (sets_in self.now) }
        ensures low { 2 ≤ result }
        ensures high { result ≤ 16 }
    {
        self.sets.len()
    }

    /// The set of a stage.
    fn set(&self, stage: usize) -> u32
        requires { stage < length (sets_in self.now) }
        ensures { result ≡ slice_index (sets_in self.now) stage }
    {
        number(&self.sets[stage])
    }

    /// Can the stage execute the operation? No stage past the top can.
    pub fn able(&self, stage: usize, operation: u8) -> bool
        ensures { result ≡ able (sets_in self.now) stage operation }
    {
        stage < self.stages() && operation < 32 && holds(self.set(stage), operation)
    }

    /// The last stage that can execute the operation; none where no stage can.
    pub fn last_able(&self, operation: u8) -> Option<usize>
        ensures { LastAble (sets_in self.now) operation result }
    {
        (0..self.stages())
            .rev()
            .find(|stage| self.able(*stage, operation))
    }

    /// Can some stage from this one on execute the operation?
    pub fn able_from(&self, stage: usize, operation: u8) -> bool
        ensures { result ≡
            able_from (length (sets_in self.now)) (sets_in self.now) stage operation }
    {
        self.last_able(operation).is_some_and(|last| stage <= last)
    }
}
