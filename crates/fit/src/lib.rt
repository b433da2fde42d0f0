//! Fit: whether every instruction of an image has a stage, and whether the unit knows its
//! operations.
#![tactic(auto)]

pub use faults::FitFault;
pub use fitting::fit;
pub use pairs::Fitted;

mod faults;
mod fitting;
mod pairs;
mod questions;
mod telling;
