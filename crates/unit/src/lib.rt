//! Units: what computes the outcome of an operation on two words.
#![tactic(auto)]

pub use outcome::{Fault, Outcome};
pub use table::WordTable;
pub use traits::Unit;
pub use whole::WholeNumber;

mod outcome;
mod table;
mod traits;
mod whole;
