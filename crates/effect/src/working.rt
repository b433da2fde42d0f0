ghost use Rattle.std.specs.Prelude.{◌≡◌};
ghost use Rattle.effect.specs.declared.actions.Action.TheVariants.{Nothing};
ghost use Rattle.effect.specs.Effects.{following, address_of, does, trapped, loaded, stored, computed, effect_of};

use crate::actions::{Action, Effect, Fetched, Sources};
use crate::causes::Cause;
use instruction::{Instruction, Register};
use memory::Readable;
use unit::{Outcome, Unit};

/// A trap: the cause and the place as one word for r15, and on to the handler.
fn trap(cause: Cause, place: u32, handler: u32) -> Effect
    ensures { result ≡ trapped cause place handler }
{
    Effect {
        action: Action::Trap {
            word: 65536 * cause.number() + place % 65536,
        },
        next: handler,
    }
}

/// Nothing but a jump.
fn jump(next: u32) -> Effect
    ensures { result ≡ does Nothing next }
{
    Effect {
        action: Action::Nothing,
        next,
    }
}

// The handler goes beside what was fetched: it is the image's, and no part of what was fetched.
impl Fetched {
    /// The place after this one.
    fn following(self) -> u32
        ensures { result ≡ following self.place }
    {
        self.place.wrapping_add(1)
    }

    /// An action, and on to the place after this one.
    fn go_on(self, action: Action) -> Effect
        ensures { result ≡ does action (following self.place) }
    {
        Effect {
            action,
            next: self.following(),
        }
    }

    fn load<R: Readable>(self, handler: u32, register: Register, address: u32, memory: &R) -> Effect
        ensures { result ≡
            loaded (R.Readable.words memory.now) handler self.place register address }
    {
        match memory.read(address) {
            Ok(word) => self.go_on(Action::SetRegister { register, word }),
            Err(_) => trap(Cause::Outside, self.place, handler),
        }
    }

    fn store<R: Readable>(self, handler: u32, address: u32, word: u32, memory: &R) -> Effect
        ensures { result ≡ stored (R.Readable.words memory.now) handler self.place address word }
    {
        if address < memory.size() {
            self.go_on(Action::StoreWord { address, word })
        } else {
            trap(Cause::Outside, self.place, handler)
        }
    }

    fn compute(self, handler: u32, register: Register, outcome: Outcome) -> Effect
        ensures { result ≡ computed handler self.place register outcome }
    {
        match outcome {
            Ok(word) => self.go_on(Action::SetRegister { register, word }),
            Err(fault) => trap(Cause::Unit(fault), self.place, handler),
        }
    }

    /// What happens at the place, with these words, this unit and this memory.
    pub fn effect<U: Unit, R: Readable>(
        self,
        handler: u32,
        sources: Sources,
        unit: &U,
        memory: &R,
    ) -> Effect
        ensures { result ≡
            effect_of (U.Unit.table unit.now) (R.Readable.words memory.now) handler self sources }
    {
        let Some(instruction) = self.instruction else {
            return trap(Cause::PastTheEnd, self.place, handler);
        };
        let Sources { first, second } = sources;
        match instruction {
            Instruction::Halt => self.go_on(Action::Halt),
            Instruction::Jump { target } => jump(target),
            Instruction::Set {
                destination: register,
                word,
            } => self.go_on(Action::SetRegister { register, word }),
            Instruction::BranchZero { target, .. } if first == 0 => jump(target),
            Instruction::BranchZero { .. } => self.go_on(Action::Nothing),
            Instruction::JumpRegister { .. } => jump(first),
            Instruction::Load {
                destination,
                offset,
                ..
            } => self.load(handler, destination, first.wrapping_add(offset), memory),
            Instruction::Store { offset, .. } => self.store(
                handler,
                first.wrapping_add(offset),
                second,
                memory,
            ),
            Instruction::Compute {
                operation,
                destination,
                ..
            } => {
                let outcome = unit.ask(operation.number(), first, second);
                self.compute(handler, destination, outcome)
            }
        }
    }
}
