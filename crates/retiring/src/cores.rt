ghost use Rattle.std.specs.Prelude.{◌≡◌, take, drop};
ghost use Rattle.bounded_log.specs.Room.{room};
ghost use Rattle.pipeline.specs.Views.{pipes_in, stages_in, world_in, SameMachine};
ghost use Rattle.job.specs.Reading.{core_of};
ghost use Rattle.retiring.specs.Drains.{DrainsOn};
ghost use Rattle.retiring.specs.Cores.{CoreDrains};
ghost use Rattle.retiring.specs.Edges.{Edges};

use crate::answers::CoreDrained;
use crate::drains::drain_on;
use bounded_log::Log;
use checking::{CheckFault, fit_core};
use memory::LentWords;
use pipeline::Pipeline;
use pipes::Drain;
use unit::Unit;

/// Drains a pipeline over lent words: the first 65,536 of them are the memory, and the others stay.
// A function of its own, so that what the words hold when the loan ends has a name.
fn drain_over<U: Unit>(
    pipeline: &mut Pipeline<'_>,
    unit: &U,
    words: &mut [u32],
    log: &mut Log<'_, Drain>,
) -> usize
    ensures drained { DrainsOn
        (world_in pipeline.old (U.Unit.table unit.now)) (stages_in pipeline.old)
        (pipes_in pipeline.old) (take 65536 words.old)
        (pipes_in pipeline.new) (take 65536 words.new) log.old log.new result }
    ensures beyond { drop 65536 words.new ≡ drop 65536 words.old }
{
    let mut memory = LentWords::new(words);
    drain_on(pipeline, unit, &mut memory, log)
}

/// Reads a core, fits it, builds its pipeline and drains it over the lent words, until it halts or
/// the log is full; logs each drain. A refused core leaves words and log as they were. What the rules
/// say at their edges stands beside.
pub fn drain_core<U: Unit>(
    bytes: &[u8],
    unit: &U,
    words: &mut [u32],
    log: &mut Log<'_, Drain>,
) -> Result<CoreDrained, CheckFault>
    ensures drained { CoreDrains (U.Unit.table unit.now) U.Unit.KNOWN (core_of bytes.now)
        words.old words.new log.old log.new result }
    ensures edges { Edges }
{
    let fitted = fit_core::<U>(bytes)?;
    let records = fitted.image.count();
    let stages = fitted.layout.stages();
    let mut pipeline = Pipeline::build(fitted);
    let free = log.free();
    let most = drain_over(&mut pipeline, unit, words, log);
    Ok(CoreDrained {
        records,
        stages,
        drained: free - log.free(),
        halted: pipeline.halted(),
        most,
        bound: 2 * (stages * stages) + 4 * stages + 8,
    })
}
