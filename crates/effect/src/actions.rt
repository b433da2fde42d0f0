use instruction::{Instruction, Register};

/// What was found at a place: an instruction, or nothing, at or past the end.
#[derive(Clone, Copy)]
pub struct Fetched {
    pub place: u32,
    pub instruction: Option<Instruction>,
}

/// The words of an instruction's operands; an operand that it lacks counts as 0.
#[derive(Clone, Copy)]
pub struct Sources {
    pub first: u32,
    pub second: u32,
}

/// What an instruction changes, beside the place.
#[derive(Clone, Copy, Debug, PartialEq)]
pub enum Action {
    Nothing,
    SetRegister { register: Register, word: u32 },
    StoreWord { address: u32, word: u32 },
    Trap { word: u32 },
    Halt,
}

/// What an instruction does: what it changes, and the place that is next.
#[derive(Clone, Copy)]
pub struct Effect {
    pub action: Action,
    pub next: u32,
}

/// The record of a retired instruction: its place, and what it changed.
#[derive(Clone, Copy, Debug, PartialEq)]
pub struct Retirement {
    pub place: u32,
    pub action: Action,
}
