//! From the bytes of an image to its execution, one instruction at a time.
#![tactic(auto)]

ghost use Rattle.std.specs.Prelude.{◌≡◌, take, drop};
ghost use Rattle.bounded_log.specs.Room.{room};
ghost use Rattle.stepper.specs.View.{Ran};
ghost use Rattle.execution.specs.Executed.{executed, ExecutesTo};

pub use answers::Execution;
use bounded_log::Log;
use effect::Retirement;
use image::{ImageFault, read_image};
use memory::LentWords;
use stepper::Stepper;
use unit::Unit;

mod answers;

/// Runs a stepper over lent words: the first 65,536 of them are its memory, and the others stay.
// A function of its own, so that what the words hold when the loan ends has a name.
fn run_over<U: Unit>(
    stepper: &mut Stepper<'_>,
    unit: &U,
    words: &mut [u32],
    log: &mut Log<'_, Retirement>,
) -> usize
    ensures ran { Ran (U.Unit.table unit.now) stepper.old stepper.new
        (take 65536 words.old) (take 65536 words.new) log.old log.new result }
    ensures beyond { drop 65536 words.new ≡ drop 65536 words.old }
{
    let mut memory = LentWords::new(words);
    stepper.run(unit, &mut memory, log)
}

/// Reads an image and executes it over the lent words, until it halts or the log is full, and logs
/// each step's record. A refused image leaves words and log as they were.
pub fn execute<U: Unit>(
    bytes: &[u8],
    unit: &U,
    words: &mut [u32],
    log: &mut Log<'_, Retirement>,
) -> Result<Execution, ImageFault>
    ensures { ExecutesTo
        (executed (U.Unit.table unit.now) bytes.now words.old (room log.old))
        words.new log.old log.new result }
{
    let (image, _) = read_image(bytes)?;
    let mut stepper = Stepper::new(image);
    let steps = run_over(&mut stepper, unit, words, log);
    Ok(Execution {
        records: image.count(),
        steps,
        halted: stepper.halted(),
    })
}
