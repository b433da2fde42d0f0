ghost use Rattle.std.specs.Prelude.{◌≡◌, Some};
ghost use Rattle.stepper.specs.View.{world_of};
ghost use Rattle.packets.specs.Entering.{entering, guess_of};
ghost use Rattle.packets.specs.Stages.{met, result_in};
ghost use Rattle.pipes.specs.Questions.{stage_at};
ghost use Rattle.pipes.specs.Moving.{with_stage, with_fetch, fetch_behind, fetched_from, closes, leaving_effect, retired_from};

use effect::{Effect, Fetched, Retirement};
use image::Image;
use instruction::Instruction;
use memory::{Memory, Readable};
use packets::{Packet, PacketState, Stage};
use pipes::Pipes;
use unit::Unit;

/// Does fetch close behind this: a halt, or a place past the end?
fn closes(instruction: Option<Instruction>) -> bool
    ensures { result ≡ closes instruction }
{
    matches!(instruction, None | Some(Instruction::Halt))
}

/// A packet for what was fetched enters stage 0 and meets the result there.
fn enter<U: Unit, R: Readable>(
    pipes: &mut Pipes,
    fetched: Fetched,
    handler: u32,
    unit: &U,
    memory: &R,
)
    ensures { pipes.new ≡ with_fetch
        (with_stage pipes.old 0 (met
        (Some (entering (U.Unit.table unit.now) (R.Readable.words memory.now) handler fetched))
        (result_in (stage_at pipes.old 0))))
        (fetch_behind fetched) }
{
    let packet = Packet::entering(fetched, handler, unit, memory);
    pipes.stages[0].enter(Some(packet));
    pipes.fetch = if closes(fetched.instruction) {
        None
    } else {
        Some(packet.guess)
    };
}

/// FETCH, from where fetch is open.
pub(crate) fn fetch<U: Unit, R: Readable>(
    pipes: &mut Pipes,
    image: &Image<'_>,
    unit: &U,
    memory: &R,
)
    ensures { pipes.new ≡ fetched_from (world_of (U.Unit.table unit.now) image.now)
        (R.Readable.words memory.now) pipes.old pipes.old.fetch }
{
    if let Some(place) = pipes.fetch {
        let fetched = Fetched {
            place,
            instruction: image.fetch(place),
        };
        enter(pipes, fetched, u32::from(image.handler()), unit, memory);
    }
}

/// What a packet does as it retires: a killed one does nothing.
fn leaving_effect(packet: Packet) -> Option<Effect>
    ensures { result ≡ leaving_effect packet }
{
    if !packet.is_live() {
        return None;
    }
    match packet.state {
        PacketState::Waiting => None,
        PacketState::Executed { effect, .. } => Some(effect),
    }
}

/// RETIRE: a live packet that has left writes what it carries.
pub(crate) fn retire<M: Memory>(
    pipes: &mut Pipes,
    leaving: Option<Packet>,
    memory: &mut M,
) -> Option<Retirement>
    ensures left { record
        { pipes = pipes.new; words = M.Readable.words memory.new; retirement = result }
        ≡ retired_from pipes.old (M.Readable.words memory.old) leaving }
    ensures kept { M.Memory.kept memory.new ≡ M.Memory.kept memory.old }
{
    let packet = leaving?;
    let effect = leaving_effect(packet)?;
    effect.action.apply(&mut pipes.registers, memory);
    pipes.halted = effect.action.halts() || pipes.halted;
    Some(Retirement {
        place: packet.fetched.place,
        action: effect.action,
    })
}
