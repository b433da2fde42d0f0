ghost use Rattle.std.specs.Prelude.{◌≡◌};
ghost use Rattle.layout.specs.Meaning.{sets_in};
ghost use Rattle.fit.specs.Fitting.{placed, heard};

use fields::holds;
use instruction::Instruction;
use layout::Layout;

/// Does the instruction need no stage, or is there one that can execute it?
#[tactic(auto, using(crate::proofs::Stages::placed_by))]
pub(crate) fn placed(layout: &Layout<'_>, instruction: Instruction) -> bool
    ensures { result ≡ placed (sets_in layout.now) instruction }
{
    !instruction.needs_stage() || layout.last_able(instruction.operation()).is_some()
}

/// Does the instruction ask the unit for nothing, or for an operation of its known set?
pub(crate) fn heard(known: u16, instruction: Instruction) -> bool
    ensures { result ≡ heard known instruction }
{
    match instruction {
        Instruction::Compute { operation, .. } => holds(u32::from(known), operation.number()),
        _ => true,
    }
}
