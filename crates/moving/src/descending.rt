ghost use Rattle.std.specs.Prelude.{◌≡◌};
ghost use Rattle.instruction.specs.Named.{register_number};
ghost use Rattle.pipes.specs.Moving.{read_value, fetch_on};

use instruction::Register;
use packets::PipeResult;
use pipes::Pipes;

/// READ: the value of a register.
pub(crate) fn read_value(pipes: &Pipes, register: Register) -> PipeResult
    ensures { result ≡ read_value pipes.now (register_number register) }
{
    PipeResult::Value {
        register,
        word: pipes.registers[register.index()],
    }
}

/// DROP: where fetch stands after a result has left; a wrong-branch and a trap open it at their
/// target.
pub(crate) fn fetch_on(leaving: Option<PipeResult>, fetch: Option<u32>) -> Option<u32>
    ensures { result ≡ fetch_on leaving fetch }
{
    match leaving {
        None | Some(PipeResult::Value { .. }) => fetch,
        Some(PipeResult::WrongBranch { target }) => Some(target),
        Some(PipeResult::Trap { handler }) => Some(handler),
    }
}
