//! The log: records in a row, in places that a caller lends, and the line of a record.
#![tactic(auto)]

pub use faults::{LogFault, WriteFault};
pub use lines::{Line, PrintedLine};
pub use places::Log;

mod faults;
mod lines;
mod places;
mod questions;
mod records;
mod writing;
