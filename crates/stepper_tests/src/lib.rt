//! Tests of the stepper and of whole executions.
#![tactic(auto)]

#[cfg(test)]
mod instruction_tests;
#[cfg(test)]
mod programs;
#[cfg(test)]
mod run_tests;
#[cfg(test)]
mod step_tests;
#[cfg(test)]
mod trap_tests;
