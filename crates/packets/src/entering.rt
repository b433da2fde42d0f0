ghost use Rattle.std.specs.Prelude.{◌≡◌};
ghost use Rattle.packets.specs.Packets.{executed_as};
ghost use Rattle.packets.specs.Entering.{guess_of, source_for, state_for, at_once, entering};

use crate::bindings::{Binding, Source};
use crate::packets::{Packet, PacketState, Standing};
use effect::{Fetched, Sources};
use instruction::{Instruction, Operand, Operands};
use memory::Readable;
use unit::Unit;

/// The place at which fetch goes on behind what was fetched.
fn guess(fetched: Fetched) -> u32
    ensures { result ≡ guess_of fetched }
{
    match fetched.instruction {
        Some(Instruction::Jump { target }) => target,
        Some(Instruction::JumpRegister { guess, .. }) => guess,
        Some(Instruction::BranchZero { hint, target, .. }) if hint => target,
        _ => fetched.place.wrapping_add(1),
    }
}

/// Does this need no stage to execute it?
fn at_once(instruction: Option<Instruction>) -> bool
    ensures { result ≡ at_once instruction }
{
    !instruction.is_some_and(Instruction::needs_stage)
}

impl Source {
    /// The source for an operand: a register's word is yet to come.
    fn awaiting(operand: Option<Operand>) -> Source
        ensures { result ≡ source_for operand }
    {
        match operand {
            None => Source::Absent,
            Some(Operand::Literal(word)) => Source::Literal(word),
            Some(Operand::Register(register)) => Source::Bound(Binding {
                register,
                word: 0,
                valid: false,
            }),
        }
    }
}

impl Packet {
    /// The packet for what was fetched. What needs no stage enters executed.
    // Unit and memory are the caller's, so each call that works out an effect takes both.
    pub fn entering<U: Unit, R: Readable>(
        fetched: Fetched,
        handler: u32,
        unit: &U,
        memory: &R,
    ) -> Packet
        ensures { result ≡
            entering (U.Unit.table unit.now) (R.Readable.words memory.now) handler fetched }
    {
        let guess = guess(fetched);
        let operands = Operands::of(fetched.instruction);
        let state = if at_once(fetched.instruction) {
            let sources = Sources {
                first: 0,
                second: 0,
            };
            PacketState::executed(guess, fetched.effect(handler, sources, unit, memory))
        } else {
            PacketState::Waiting
        };
        Packet {
            fetched,
            guess,
            first: Source::awaiting(operands.first),
            second: Source::awaiting(operands.second),
            state,
            standing: Standing::Live,
        }
    }
}
