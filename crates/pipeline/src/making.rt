ghost use Rattle.std.specs.Prelude.{◌≡◌, ℕ, Ok, Err};
ghost use Rattle.moves.specs.Decoding.{number_of, kind_of};
ghost use Rattle.pipes.specs.Questions.{stage_at};
ghost use Rattle.pipes.specs.Laws.{ApartBy};
ghost use Rattle.pipeline.specs.Calls.{move_made};
ghost use Rattle.pipeline.specs.Views.{pipes_in, stages_in, SameMachine};

use crate::pipelines::Pipeline;
use effect::Retirement;
use memory::{Memory, Readable};
use moves::Move;
use moving::{make, make_move};
use pipes::MoveRefusal;
use unit::Unit;

impl<'a> Pipeline<'a> {
    /// Makes a move, or turns it away with everything as it stood.
    pub(crate) fn make<U: Unit, M: Memory>(
        &mut self,
        next: Move,
        unit: &U,
        memory: &mut M,
    ) -> Result<Option<Retirement>, MoveRefusal>
        ensures made { record
            { answer = result; pipes = pipes_in self.new; words = M.Readable.words memory.new }
            ≡ move_made (U.Unit.table unit.now) self.old (M.Readable.words memory.old)
            (number_of next.kind) next.place }
        ensures machine { SameMachine self.old self.new }
        ensures kept { M.Memory.kept memory.new ≡ M.Memory.kept memory.old }
    {
        make(
            &mut self.pipes,
            &self.image,
            &self.layout,
            next,
            unit,
            memory,
        )
    }

    /// Makes a move of any two numbers as kind and place, or turns it away with everything as it
    /// stood. Answers a record exactly where a live packet retired.
    pub fn make_move<U: Unit, M: Memory>(
        &mut self,
        kind: u8,
        place: u8,
        unit: &U,
        memory: &mut M,
    ) -> Result<Option<Retirement>, MoveRefusal>
        ensures made { record
            { answer = result; pipes = pipes_in self.new; words = M.Readable.words memory.new }
            ≡ move_made (U.Unit.table unit.now) self.old (M.Readable.words memory.old)
            kind place }
        ensures machine { SameMachine self.old self.new }
        ensures refused { (f : MoveRefusal) → result ≡ Err f →
            (pipes_in self.new ≡ pipes_in self.old)
            × (M.Readable.words memory.new ≡ M.Readable.words memory.old) }
        ensures others { (k : ℕ) → ApartBy (stages_in self.old) (kind_of kind) place k →
            stage_at (pipes_in self.new) k ≡ stage_at (pipes_in self.old) k }
        ensures kept { M.Memory.kept memory.new ≡ M.Memory.kept memory.old }
    {
        make_move(
            &mut self.pipes,
            &self.image,
            &self.layout,
            kind,
            place,
            unit,
            memory,
        )
    }
}
