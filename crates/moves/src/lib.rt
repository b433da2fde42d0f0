//! Moves, and lists of moves, read from bytes.
#![tactic(auto)]

pub use faults::{MoveFault, MoveListFault};
pub use kinds::{Move, MoveKind};
pub use lists::MoveList;
pub use reader::read_moves;

mod decoder;
mod entries;
mod faults;
mod iterating;
mod judging;
mod kinds;
mod lines;
mod lists;
mod reader;
mod telling;
