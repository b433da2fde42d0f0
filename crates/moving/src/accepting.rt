ghost use Rattle.std.specs.Prelude.{◌≡◌, true, length};
ghost use Rattle.layout.specs.Meaning.{sets_in};
ghost use Rattle.stepper.specs.View.{world_of};
ghost use Rattle.pipes.specs.Questions.{place_right};
ghost use Rattle.pipes.specs.Moving.{accepted};

use crate::climbing::{fetch, retire};
use crate::descending::{fetch_on, read_value};
use effect::Retirement;
use image::Image;
use instruction::Register;
use layout::Layout;
use memory::{Memory, Readable};
use moves::{Move, MoveKind};
use packets::Stage;
use pipes::Pipes;
use unit::Unit;

/// Makes a move whose questions were all answered with yes.
// A match, since the kinds are these eight. Unit and memory are parameters of every call: any may
// be handed in at any of them.
pub(crate) fn accept<U: Unit, M: Memory>(
    pipes: &mut Pipes,
    image: &Image<'_>,
    layout: &Layout<'_>,
    next: Move,
    unit: &U,
    memory: &mut M,
) -> Option<Retirement>
    requires { place_right (length (sets_in layout.now)) next.kind next.place ≡ true }
    ensures left { record
        { pipes = pipes.new; words = M.Readable.words memory.new; retirement = result }
        ≡ accepted (world_of (U.Unit.table unit.now) image.now) (sets_in layout.now)
        pipes.old (M.Readable.words memory.old) next.kind next.place }
    ensures kept { M.Memory.kept memory.new ≡ M.Memory.kept memory.old }
{
    let Move { kind, place } = next;
    let top = layout.stages() - 1;
    let at = usize::from(place);
    match kind {
        MoveKind::Fetch => fetch(pipes, image, unit, memory),
        MoveKind::Raise => {
            let packet = pipes.stages[at].leave();
            pipes.stages[at + 1].enter(packet);
        }
        MoveKind::Lower => {
            let result = pipes.stages[at].release();
            pipes.stages[at - 1].receive(result);
        }
        MoveKind::Execute => pipes.stages[at].execute(u32::from(image.handler()), unit, memory),
        MoveKind::Insert => pipes.stages[at].insert(),
        MoveKind::Read => {
            let value = read_value(pipes, Register::named(place));
            pipes.stages[top].receive(Some(value));
        }
        MoveKind::Retire => {
            let leaving = pipes.stages[top].leave();
            return retire(pipes, leaving, memory);
        }
        MoveKind::Drop => {
            let result = pipes.stages[0].release();
            pipes.fetch = fetch_on(result, pipes.fetch);
        }
    }
    None
}
