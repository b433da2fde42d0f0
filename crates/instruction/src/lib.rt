//! Instructions: what a core is asked to do.
#![tactic(auto)]

pub use instructions::{Instruction, Operand, Operands};
pub use numbers::{Register, UnitOp};

mod instructions;
mod numbers;
mod operands;
mod operations;
mod registers;
mod unit_ops;
