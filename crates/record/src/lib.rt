//! The records of an image: eight bytes, and the instruction that they are.
#![tactic(auto)]

pub use faults::{Field, RecordFault};
pub use records::Record;

mod decoder;
mod faults;
mod records;
mod shapes;
mod telling;
