//! Tests of the reader of jobs and of fit: every question with its byte place.
#![tactic(auto)]

#[cfg(test)]
mod core_tests;
#[cfg(test)]
mod fit_tests;
#[cfg(test)]
mod job_tests;
#[cfg(test)]
mod told;
