ghost use Rattle.std.specs.Prelude.{◌≡◌, Some, None};
ghost use Rattle.packets.specs.Packets.{owed_by, executed_as, paid};
ghost use Rattle.packets.specs.Stages.{slot, free, staged, vacant, result_in, met, worked, executing, inserting};

use crate::packets::{Packet, PacketState};
use crate::results::PipeResult;
use crate::slots::ResultSlot;
use crate::stages::Stage;
use effect::{Action, Effect};
use memory::Readable;
use unit::Unit;

/// What an effect owes the packets behind, where fetch went on at the guess.
fn owed(guess: u32, effect: Effect) -> Option<PipeResult>
    ensures { result ≡ owed_by guess effect.next effect.action }
{
    match effect.action {
        Action::Nothing if effect.next != guess => Some(PipeResult::WrongBranch {
            target: effect.next,
        }),
        Action::SetRegister { register, word } => Some(PipeResult::Value { register, word }),
        Action::Trap { .. } => Some(PipeResult::Trap {
            handler: effect.next,
        }),
        Action::Nothing | Action::StoreWord { .. } | Action::Halt => None,
    }
}

impl PacketState {
    /// Executed with this effect, where fetch went on at the guess.
    pub(crate) fn executed(guess: u32, effect: Effect) -> PacketState
        ensures { result ≡ executed_as guess effect }
    {
        PacketState::Executed {
            effect,
            owed: owed(guess, effect),
        }
    }
}

impl Packet {
    /// Works out what the instruction does with the packet's own words.
    fn execute<U: Unit, R: Readable>(&mut self, handler: u32, unit: &U, memory: &R)
        ensures { self.new ≡
            worked (U.Unit.table unit.now) (R.Readable.words memory.now) handler self.old }
    {
        let effect = self.fetched.effect(handler, self.sources(), unit, memory);
        self.state = PacketState::executed(self.guess, effect);
    }

    /// Owes nothing any more.
    fn pay(&mut self)
        ensures { self.new ≡ paid self.old }
    {
        if let PacketState::Executed { owed, .. } = &mut self.state {
            *owed = None;
        }
    }
}

impl ResultSlot {
    pub fn is_free(&self) -> bool
        ensures { result ≡ free self.now }
    {
        self.held.is_none()
    }

    /// A result comes in, or none does.
    fn put(&mut self, arriving: Option<PipeResult>)
        ensures { self.new ≡ slot arriving }
    {
        self.held = arriving;
    }

    /// Empties the slot, and answers what it held.
    pub fn take(&mut self) -> Option<PipeResult>
        ensures value { result ≡ self.old.held }
        ensures after { self.new ≡ slot None }
    {
        self.held.take()
    }
}

impl Stage {
    /// A stage with both slots empty.
    pub fn vacant() -> Stage
        ensures { result ≡ vacant }
    {
        Stage {
            packet: None,
            result: ResultSlot { held: None },
        }
    }

    /// A packet enters from below, and meets the result that stands here.
    pub fn enter(&mut self, packet: Option<Packet>)
        ensures { self.new ≡ met packet (result_in self.old) }
    {
        self.packet = packet;
        self.meet();
    }

    /// The packet goes, and is answered.
    pub fn leave(&mut self) -> Option<Packet>
        ensures value { result ≡ self.old.packet }
        ensures after { self.new ≡ staged None (result_in self.old) }
    {
        self.packet.take()
    }

    /// A result comes from above, and meets the packet that stands here.
    pub fn receive(&mut self, arriving: Option<PipeResult>)
        ensures { self.new ≡ met self.old.packet arriving }
    {
        self.result.put(arriving);
        self.meet();
    }

    /// The result goes, and is answered.
    pub fn release(&mut self) -> Option<PipeResult>
        ensures value { result ≡ result_in self.old }
        ensures after { self.new ≡ staged self.old.packet None }
    {
        self.result.take()
    }

    /// The packet is executed.
    pub fn execute<U: Unit, R: Readable>(&mut self, handler: u32, unit: &U, memory: &R)
        ensures { self.new ≡
            executing (U.Unit.table unit.now) (R.Readable.words memory.now) handler self.old }
    {
        if let Some(packet) = &mut self.packet {
            packet.execute(handler, unit, memory);
        }
    }

    /// What the packet owes enters the result slot, and meets nobody.
    pub fn insert(&mut self)
        ensures { self.new ≡ inserting self.old }
    {
        if let Some(packet) = &mut self.packet {
            self.result.put(packet.owing());
            packet.pay();
        }
    }
}
