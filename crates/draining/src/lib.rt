//! Which move a drain makes next.
#![tactic(auto)]

pub use policy::choose;

mod finding;
mod policy;
mod wanting;
