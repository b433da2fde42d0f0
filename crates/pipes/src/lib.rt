//! The two pipes as plain data, and the definitions of what every move makes of them.
#![tactic(auto)]

pub use ables::some_able;
pub use answers::{Drain, DrainRefusal, MoveRefusal, RunFigures, RunRefusal};
pub use state::Pipes;

mod ables;
mod answers;
mod lines;
mod state;
mod telling;
