//! Jobs: an image, a layout and a move list in a row, read in this order; cores, which are jobs without
//! moves.
#![tactic(auto)]

pub use cores::read_core;
pub use faults::JobFault;
pub use reader::read_job;
pub use states::{Core, Job, JobBytes, JobWithImage, JobWithLayout};

mod cores;
mod faults;
mod reader;
mod states;
mod steps;
mod telling;
