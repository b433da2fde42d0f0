//! Tests of every single move: its questions, and what it leaves.
#![tactic(auto)]

#[cfg(test)]
mod flow_tests;
#[cfg(test)]
mod meeting_tests;
#[cfg(test)]
mod question_tests;
#[cfg(test)]
mod tables;
#[cfg(test)]
mod told;
