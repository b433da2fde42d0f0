//! The effect of an instruction: what it does with its words, and the record of its retirement.
#![tactic(auto)]

pub use actions::{Action, Effect, Fetched, Retirement, Sources};

mod actions;
mod causes;
mod changes;
mod retirements;
mod working;
