use crate::numbers::{Register, UnitOp};

/// Where an instruction takes a word from.
#[derive(Clone, Copy, Debug, PartialEq)]
pub enum Operand {
    Register(Register),
    Literal(u32),
}

/// The operands of an instruction, as many as it has.
#[derive(Clone, Copy, Debug, Default, PartialEq)]
pub struct Operands {
    pub first: Option<Operand>,
    pub second: Option<Operand>,
}

/// A decoded record.
#[derive(Clone, Copy, Debug, PartialEq)]
pub enum Instruction {
    Halt,
    Jump {
        target: u32,
    },
    Set {
        destination: Register,
        word: u32,
    },
    BranchZero {
        hint: bool,
        tested: Register,
        target: u32,
    },
    JumpRegister {
        target: Register,
        guess: u32,
    },
    Load {
        destination: Register,
        base: Register,
        offset: u32,
    },
    Store {
        base: Register,
        stored: Register,
        offset: u32,
    },
    Compute {
        operation: UnitOp,
        destination: Register,
        first: Operand,
        second: Operand,
    },
}
