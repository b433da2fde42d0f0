ghost use Rattle.std.specs.Prelude.{◌≡◌, ◌<◌, ◌≤◌, length};
ghost use Rattle.moves.specs.Meaning.{moves_in};
ghost use Rattle.bounded_log.specs.Room.{room, Logs};
ghost use Rattle.pipes.specs.Running.{retirements, figures_after, records_of, RunsTo};
ghost use Rattle.pipeline.specs.Calls.{list_run};
ghost use Rattle.pipeline.specs.Views.{pipes_in, SameMachine};

use crate::pipelines::Pipeline;
use bounded_log::Log;
use effect::Retirement;
use memory::{Memory, Readable};
use moves::{MoveKind, MoveList};
use pipes::{MoveRefusal, RunFigures, RunRefusal};
use unit::Unit;

/// How many moves of a list are retirements.
fn retirements(moves: &MoveList<'_>) -> usize
    ensures { result ≡ retirements (moves_in moves.now) }
{
    moves
        .iter()
        .filter(|next| matches!(next.kind, MoveKind::Retire))
        .count()
}

/// Counts the answer to a move, and logs the record of a live retirement.
fn note(
    answer: Result<Option<Retirement>, MoveRefusal>,
    log: &mut Log<'_, Retirement>,
    figures: &mut RunFigures,
)
    requires few { (figures.old.accepted < 16000)
        × ((figures.old.turned_away < 16000) × (figures.old.live < 16000)) }
    requires free { length (records_of answer) ≤ room log.old }
    ensures figures { figures.new ≡ figures_after answer figures.old }
    ensures logs { Logs log.old log.new (records_of answer) }
{
    match answer {
        Err(_) => figures.turned_away += 1,
        Ok(None) => figures.accepted += 1,
        Ok(Some(record)) => {
            figures.accepted += 1;
            figures.live += 1;
            let _ = log.add(record);
        }
    }
}

impl<'a> Pipeline<'a> {
    /// Makes each move of a list, and logs the records of live retirements. Refused, with
    /// everything as it stood, where the log has fewer free places than the list has retirements.
    pub fn run<U: Unit, M: Memory>(
        &mut self,
        moves: &MoveList<'_>,
        unit: &U,
        memory: &mut M,
        log: &mut Log<'_, Retirement>,
    ) -> Result<RunFigures, RunRefusal>
        ensures ran { RunsTo
            (list_run (U.Unit.table unit.now) self.old
            (M.Readable.words memory.old) (moves_in moves.now) (room log.old))
            (pipes_in self.new) (M.Readable.words memory.new) log.old log.new result }
        ensures machine { SameMachine self.old self.new }
        ensures kept { M.Memory.kept memory.new ≡ M.Memory.kept memory.old }
    {
        if log.free() < retirements(moves) {
            return Err(RunRefusal::ShortLog);
        }
        let mut figures = RunFigures {
            accepted: 0,
            turned_away: 0,
            live: 0,
        };
        for next in moves {
            let answer = self.make(next, unit, memory);
            note(answer, log, &mut figures);
        }
        Ok(figures)
    }
}
