//! The pipeline: build, every single move, and runs of moves.
#![tactic(auto)]

pub use pipelines::Pipeline;

mod building;
mod drains;
mod making;
mod pipelines;
mod running;
