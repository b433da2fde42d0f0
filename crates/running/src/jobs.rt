ghost use Rattle.std.specs.Prelude.{◌≡◌, take, drop};
ghost use Rattle.bounded_log.specs.Room.{room, Logs};
ghost use Rattle.moves.specs.Meaning.{moves_in};
ghost use Rattle.pipes.specs.Running.{RunsTo};
ghost use Rattle.pipeline.specs.Calls.{list_run};
ghost use Rattle.pipeline.specs.Views.{pipes_in};
ghost use Rattle.job.specs.Reading.{job_of};
ghost use Rattle.running.specs.Jobs.{JobRuns, kept};

use crate::answers::{JobRun, JobRunFault};
use bounded_log::Log;
use checking::{FittedJob, fit_job};
use effect::Retirement;
use memory::LentWords;
use moves::MoveList;
use pipeline::Pipeline;
use pipes::{RunFigures, RunRefusal};
use unit::Unit;

/// Runs moves over lent words: the first 65,536 of them are the memory, and the others stay.
// A function of its own, so that what the words hold when the loan ends has a name.
fn run_over<U: Unit>(
    pipeline: &mut Pipeline<'_>,
    moves: &MoveList<'_>,
    unit: &U,
    words: &mut [u32],
    log: &mut Log<'_, Retirement>,
) -> Result<RunFigures, RunRefusal>
    ensures ran { RunsTo
        (list_run (U.Unit.table unit.now) pipeline.old
        (take 65536 words.old) (moves_in moves.now) (room log.old))
        (pipes_in pipeline.new) (take 65536 words.new) log.old log.new result }
    ensures beyond { drop 65536 words.new ≡ drop 65536 words.old }
{
    let mut memory = LentWords::new(words);
    pipeline.run(moves, unit, &mut memory, log)
}

/// Reads a job, fits it, builds its pipeline and runs its moves over the lent words; logs the
/// records of live retirements. A refused job leaves words and log as they were.
pub fn run_job<U: Unit>(
    bytes: &[u8],
    unit: &U,
    words: &mut [u32],
    log: &mut Log<'_, Retirement>,
) -> Result<JobRun, JobRunFault>
    ensures value { JobRuns (U.Unit.table unit.now) U.Unit.KNOWN words.old (room log.old)
        (job_of bytes.now) result }
    ensures words { words.new ≡ (kept words.old (U.Unit.table unit.now) (room log.old)
        (job_of bytes.now) result).words_are }
    ensures logs { Logs log.old log.new (kept words.old (U.Unit.table unit.now) (room log.old)
        (job_of bytes.now) result).records }
{
    let fitted_job = fit_job::<U>(bytes)?;
    let job = fitted_job.figures();
    let FittedJob { fitted, moves } = fitted_job;
    let mut pipeline = Pipeline::build(fitted);
    let run = run_over(&mut pipeline, &moves, unit, words, log)?;
    Ok(JobRun {
        job,
        run,
        halted: pipeline.halted(),
    })
}
