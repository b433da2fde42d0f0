ghost use Rattle.std.specs.Prelude.{◌≡◌, false};
ghost use Rattle.stepper.specs.Machine.{changed, applied, changed_at, stepped, answer_of};
ghost use Rattle.stepper.specs.View.{image_in, halted_in, view, world_of, Ran};

use crate::state::{StepFault, Stepper};
use bounded_log::Log;
use effect::{Effect, Fetched, Retirement};
use memory::{Memory, Readable};
use unit::Unit;

impl<'a> Stepper<'a> {
    /// Makes the changes of an effect, and goes on to the next place.
    #[tactic(auto, using(crate::proofs::Applied::applied_parts))]
    fn apply<M: Memory>(&mut self, effect: Effect, memory: &mut M)
        ensures after { view self.new (M.Readable.words memory.new) ≡
            applied effect (view self.old (M.Readable.words memory.old)) }
        ensures cases { view self.new (M.Readable.words memory.new) ≡
            changed effect.action effect.next (view self.old (M.Readable.words memory.old)) }
        ensures image { image_in self.new ≡ image_in self.old }
        ensures kept { M.Memory.kept memory.new ≡ M.Memory.kept memory.old }
    {
        effect.action.apply(&mut self.registers, memory);
        self.place = effect.next;
        self.halted = effect.action.halts() || self.halted;
    }

    /// Executes the next instruction; refused after a halt, with everything as it stood.
    pub fn step<U: Unit, M: Memory>(
        &mut self,
        unit: &U,
        memory: &mut M,
    ) -> Result<Retirement, StepFault>
        ensures value { result ≡
            answer_of (world_of (U.Unit.table unit.now) (image_in self.old))
            (view self.old (M.Readable.words memory.old)) }
        ensures after { view self.new (M.Readable.words memory.new) ≡
            stepped (world_of (U.Unit.table unit.now) (image_in self.old))
            (view self.old (M.Readable.words memory.old)) }
        ensures cases { halted_in self.old ≡ false → view self.new (M.Readable.words memory.new) ≡
            changed_at (world_of (U.Unit.table unit.now) (image_in self.old))
            (view self.old (M.Readable.words memory.old)) }
        ensures image { image_in self.new ≡ image_in self.old }
        ensures kept { M.Memory.kept memory.new ≡ M.Memory.kept memory.old }
    {
        if self.halted {
            return Err(StepFault::Halted);
        }
        let place = self.place;
        let fetched = Fetched {
            place,
            instruction: self.image.fetch(place),
        };
        let sources = self.sources(fetched.instruction);
        let handler = u32::from(self.image.handler());
        let effect = fetched.effect(handler, sources, unit, memory);
        self.apply(effect, memory);
        Ok(Retirement {
            place,
            action: effect.action,
        })
    }

    /// Steps until the halt or until the log is full, logs each step's record, and answers the
    /// number of steps.
    pub fn run<U: Unit, M: Memory>(
        &mut self,
        unit: &U,
        memory: &mut M,
        log: &mut Log<'_, Retirement>,
    ) -> usize
        ensures ran { Ran (U.Unit.table unit.now) self.old self.new
            (M.Readable.words memory.old) (M.Readable.words memory.new) log.old log.new result }
        ensures kept { M.Memory.kept memory.new ≡ M.Memory.kept memory.old }
    {
        let room = log.free();
        // The number of steps is the answer, so the loop counts them.
        for made in 0..room {
            let Ok(record) = self.step(unit, memory) else {
                return made;
            };
            let _ = log.add(record);
        }
        room
    }
}
