//! The check of a job, and of a core: read, then fitted.
#![tactic(auto)]

pub use answers::{CheckFault, JobFigures};
pub use cores::fit_core;
pub use fitted::FittedJob;
pub use fitting::fit_job;
pub use jobs::check_job;

mod answers;
mod cores;
mod fitted;
mod fitting;
mod jobs;
mod telling;
