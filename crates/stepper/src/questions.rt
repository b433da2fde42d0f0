ghost use Rattle.std.specs.Prelude.{◌≡◌, ℕ, List, slice_index};
ghost use Rattle.instruction.specs.Named.{register_number};
ghost use Rattle.stepper.specs.Machine.{step_number, start, word_of, sources_of};
ghost use Rattle.stepper.specs.View.{image_in, place_in, registers_in, halted_in, view};

use crate::state::{StepFault, Stepper};
use effect::Sources;
use image::Image;
use instruction::{Instruction, Operand, Operands, Register};

// One cast for each enum: a trait would ask for the same line in an impl of each.
impl StepFault {
    /// The refusal's number.
    pub fn number(self) -> u8
        ensures { result ≡ step_number self }
    {
        self as u8
    }
}

impl<'a> Stepper<'a> {
    /// At place 0, every register 0, not halted.
    pub fn new(image: Image<'a>) -> Stepper<'a>
        ensures image { image_in result ≡ image.entry }
        ensures state { (words : List ℕ) → view result words ≡ start words }
    {
        Stepper {
            image,
            place: 0,
            registers: [0; 16],
            halted: false,
        }
    }

    /// The place of the next instruction.
    pub fn place(&self) -> u32
        ensures { result ≡ place_in self.now }
    {
        self.place
    }

    pub fn register(&self, register: Register) -> u32
        ensures { result ≡ slice_index (registers_in self.now) (register_number register) }
    {
        self.registers[register.index()]
    }

    pub fn halted(&self) -> bool
        ensures { result ≡ halted_in self.now }
    {
        self.halted
    }

    /// The word of an operand; 0 where there is none.
    fn word(&self, operand: Option<Operand>) -> u32
        ensures { result ≡ word_of (registers_in self.now) operand }
    {
        match operand {
            Some(Operand::Register(register)) => self.register(register),
            Some(Operand::Literal(word)) => word,
            None => 0,
        }
    }

    /// The words of an instruction's operands.
    pub(crate) fn sources(&self, instruction: Option<Instruction>) -> Sources
        ensures { result ≡ sources_of (registers_in self.now) instruction }
    {
        let Operands { first, second } = Operands::of(instruction);
        Sources {
            first: self.word(first),
            second: self.word(second),
        }
    }
}
