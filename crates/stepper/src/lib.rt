//! The stepper: an image executed one instruction at a time.
#![tactic(auto)]

pub use state::{StepFault, Stepper};

mod questions;
mod state;
mod stepping;
