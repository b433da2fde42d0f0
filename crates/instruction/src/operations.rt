ghost use Rattle.std.specs.Prelude.{◌≡◌};
ghost use Rattle.instruction.specs.Operations.{operation_of, needs_stage};

use crate::instructions::Instruction;

impl Instruction {
    /// The number of its operation: 0 to 6, or 16 to 31.
    pub fn operation(self) -> u8
        ensures { result ≡ operation_of self }
    {
        // A case with fields carries no number of its own, so the numbers stand here.
        match self {
            Instruction::Halt => 0,
            Instruction::Jump { .. } => 1,
            Instruction::Set { .. } => 2,
            Instruction::BranchZero { .. } => 3,
            Instruction::JumpRegister { .. } => 4,
            Instruction::Load { .. } => 5,
            Instruction::Store { .. } => 6,
            Instruction::Compute { operation, .. } => 16 + operation.number(),
        }
    }

    /// Does it need a stage that can execute it? A halt and a jump need none.
    pub fn needs_stage(self) -> bool
        ensures { result ≡ needs_stage self }
    {
        !matches!(self, Instruction::Halt | Instruction::Jump { .. })
    }
}
