ghost use Rattle.std.specs.Prelude.{◌≡◌, Some};
ghost use Rattle.packets.specs.Packets.{killed};
ghost use Rattle.packets.specs.Meeting.{bound, garnered, garnering, destination_of, names, behind, passed, met_packet, met_result};
ghost use Rattle.packets.specs.Stages.{staged, met, meeting};

use crate::bindings::{Binding, Source};
use crate::packets::{Packet, PacketState, Standing};
use crate::results::PipeResult;
use crate::slots::ResultSlot;
use crate::stages::Stage;
use effect::Action;
use instruction::{Instruction, Register};

/// Does an instruction write this register, if it does not trap?
fn writes(instruction: Option<Instruction>, register: Register) -> bool
    ensures { result ≡ names (destination_of instruction) register }
{
    match instruction {
        Some(
            Instruction::Set { destination, .. }
            | Instruction::Load { destination, .. }
            | Instruction::Compute { destination, .. },
        ) => destination == register,
        _ => false,
    }
}

/// The word of a register behind an action, where it was this word before.
fn behind(action: Action, register: Register, word: u32) -> u32
    ensures { result ≡ behind action register word }
{
    match action {
        Action::SetRegister {
            register: destination,
            word: written,
        } => {
            if destination == register {
                written
            } else {
                word
            }
        }
        Action::Trap { word: written } if register == Register::TRAP => written,
        _ => word,
    }
}

impl Binding {
    /// Takes the word, where it waits for this register.
    fn garner(&mut self, register: Register, word: u32)
        ensures { self.new ≡ bound register word self.old }
    {
        if !self.valid && self.register == register {
            self.word = word;
            self.valid = true;
        }
    }
}

impl Source {
    fn garner(&mut self, register: Register, word: u32)
        ensures { self.new ≡ garnered register word self.old }
    {
        if let Source::Bound(binding) = self {
            binding.garner(register, word);
        }
    }
}

impl Packet {
    /// Each source that waits for the register takes the word.
    fn garner(&mut self, register: Register, word: u32)
        ensures { self.new ≡ garnering register word self.old }
    {
        self.first.garner(register, word);
        self.second.garner(register, word);
    }

    fn kill(&mut self)
        ensures { self.new ≡ killed self.old }
    {
        self.standing = Standing::Killed;
    }

    /// The value that goes on below this packet.
    fn passed(&self, register: Register, word: u32) -> Option<PipeResult>
        ensures { result ≡ passed self.now register word }
    {
        match self.state {
            PacketState::Waiting if writes(self.fetched.instruction, register) => None,
            PacketState::Waiting => Some(PipeResult::Value { register, word }),
            PacketState::Executed { effect, .. } => Some(PipeResult::Value {
                register,
                word: behind(effect.action, register, word),
            }),
        }
    }

    /// Meets a result, and answers what goes on of it.
    fn meet(&mut self, arriving: PipeResult) -> Option<PipeResult>
        ensures packet { self.new ≡ met_packet self.old arriving }
        ensures value { result ≡ met_result self.old arriving }
    {
        if !self.is_live() {
            return Some(arriving);
        }
        match arriving {
            PipeResult::Value { register, word } => {
                self.garner(register, word);
                self.passed(register, word)
            }
            PipeResult::WrongBranch { .. } | PipeResult::Trap { .. } => {
                self.kill();
                Some(arriving)
            }
        }
    }
}

impl ResultSlot {
    /// What the slot holds meets a packet.
    fn meet(&mut self, packet: &mut Packet)
        ensures { staged (Some packet.new) self.new.held ≡ met (Some packet.old) self.old.held }
    {
        if let Some(result) = self.held {
            self.held = packet.meet(result);
        }
    }
}

impl Stage {
    /// The packet and the result of this stage meet.
    pub fn meet(&mut self)
        ensures { self.new ≡ meeting self.old }
    {
        if let Some(packet) = &mut self.packet {
            self.result.meet(packet);
        }
    }
}
