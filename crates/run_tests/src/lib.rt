//! Tests of runs, and of whole jobs.
#![tactic(auto)]

#[cfg(test)]
mod agreement_tests;
#[cfg(test)]
mod job_tests;
#[cfg(test)]
mod jobs;
#[cfg(test)]
mod turn_tests;
