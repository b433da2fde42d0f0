ghost use Rattle.std.specs.Prelude.{◌≡◌, length};
ghost use Rattle.layout.specs.Meaning.{sets_in};
ghost use Rattle.pipes.specs.Draining.{bound, DrainsTo};
ghost use Rattle.pipeline.specs.Views.{pipes_in, stages_in, world_in, SameMachine};

use crate::pipelines::Pipeline;
use bounded_log::Log;
use draining::choose;
use layout::Layout;
use memory::{Memory, Readable};
use moves::{Move, MoveKind};
use pipes::{Drain, DrainRefusal};
use unit::Unit;

/// The most moves that a drain makes on the stages of a layout.
fn most_moves(layout: &Layout<'_>) -> usize
    ensures { result ≡ bound (length (sets_in layout.now)) }
{
    let stages = layout.stages();
    2 * (stages * stages) + 4 * stages + 8
}

impl<'a> Pipeline<'a> {
    /// Makes moves until one instruction retires, logs them, and answers their number and the
    /// record. Refused, with everything as it stood, where the pipeline has halted, and where the
    /// log has not room for as many moves as a drain may make.
    pub fn drain<U: Unit, M: Memory>(
        &mut self,
        unit: &U,
        memory: &mut M,
        log: &mut Log<'_, Move>,
    ) -> Result<Drain, DrainRefusal>
        ensures drained { DrainsTo (world_in self.old (U.Unit.table unit.now)) (stages_in self.old)
            (pipes_in self.old) (M.Readable.words memory.old)
            (pipes_in self.new) (M.Readable.words memory.new) log.old log.new result }
        ensures machine { SameMachine self.old self.new }
        ensures kept { M.Memory.kept memory.new ≡ M.Memory.kept memory.old }
    {
        if self.pipes.halted {
            return Err(DrainRefusal::Halted);
        }
        if log.free() < most_moves(&self.layout) {
            return Err(DrainRefusal::ShortLog);
        }
        // Counted here: the log's count takes in its entries from before the drain, and would have
        // to be kept from before the loop and subtracted.
        let mut moves = 0usize;
        loop {
            let next = choose(&self.pipes, &self.layout);
            let answer = self.make(next, unit, memory);
            let _ = log.add(next);
            moves += 1;
            match answer {
                Ok(Some(retirement)) => return Ok(Drain { moves, retirement }),
                Ok(None) => {}
                Err(_) => unreachable!(),
            }
        }
    }
}
