//! A move, on plain pipes.
#![tactic(auto)]

pub use making::{make, make_move};

mod accepting;
mod climbing;
mod descending;
mod making;
mod questions;
