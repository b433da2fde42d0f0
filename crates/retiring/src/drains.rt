ghost use Rattle.std.specs.Prelude.{◌≡◌};
ghost use Rattle.pipeline.specs.Views.{pipes_in, stages_in, world_in, SameMachine};
ghost use Rattle.retiring.specs.Drains.{DrainsOn};

use bounded_log::Log;
use memory::{Memory, Readable};
use moves::{Move, MoveKind};
use pipeline::Pipeline;
use pipes::Drain;
use unit::Unit;

/// Room for the moves of one drain of sixteen stages.
const MOST_MOVES: usize = 584;

/// Drains a pipeline until it halts or the log is full, logs each drain, and answers the most moves
/// that one made.
pub(crate) fn drain_on<U: Unit, M: Memory>(
    pipeline: &mut Pipeline<'_>,
    unit: &U,
    memory: &mut M,
    log: &mut Log<'_, Drain>,
) -> usize
    ensures drained { DrainsOn
        (world_in pipeline.old (U.Unit.table unit.now)) (stages_in pipeline.old)
        (pipes_in pipeline.old) (M.Readable.words memory.old)
        (pipes_in pipeline.new) (M.Readable.words memory.new) log.old log.new result }
    ensures machine { SameMachine pipeline.old pipeline.new }
    ensures kept { M.Memory.kept memory.new ≡ M.Memory.kept memory.old }
{
    let mut places = [Move {
        kind: MoveKind::Fetch,
        place: 0,
    }; MOST_MOVES];
    let mut moves = Log::new(&mut places);
    let mut most = 0usize;
    let room = log.free();
    for _ in 0..room {
        moves.clear();
        let Ok(drain) = pipeline.drain(unit, memory, &mut moves) else {
            return most;
        };
        most = most.max(drain.moves);
        let _ = log.add(drain);
    }
    most
}
