//! From the bytes of a job to its run.
#![tactic(auto)]

pub use answers::{JobRun, JobRunFault};
pub use jobs::run_job;

mod answers;
mod jobs;
mod telling;
