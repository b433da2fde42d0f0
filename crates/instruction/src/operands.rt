ghost use Rattle.std.specs.Prelude.{◌≡◌};
ghost use Rattle.instruction.specs.Operands.{operands_of, operands_at};

use crate::instructions::{Instruction, Operand, Operands};

impl Instruction {
    /// Where the instruction takes its first and its second word from.
    pub fn operands(self) -> Operands
        ensures { result ≡ operands_of self }
    {
        let (first, second) = match self {
            Instruction::Halt | Instruction::Jump { .. } | Instruction::Set { .. } => (None, None),
            Instruction::BranchZero { tested, .. } => (Some(Operand::Register(tested)), None),
            Instruction::JumpRegister { target, .. } => (Some(Operand::Register(target)), None),
            Instruction::Load { base, .. } => (Some(Operand::Register(base)), None),
            Instruction::Store { base, stored, .. } => (
                Some(Operand::Register(base)),
                Some(Operand::Register(stored)),
            ),
            Instruction::Compute { first, second, .. } => (Some(first), Some(second)),
        };
        Operands { first, second }
    }
}

impl Operands {
    /// The operands of what stands at a place; past the end of an image there are none.
    pub fn of(found: Option<Instruction>) -> Operands
        ensures { result ≡ operands_at found }
    {
        found.map(Instruction::operands).unwrap_or_default()
    }
}
