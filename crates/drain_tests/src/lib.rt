//! Tests of drain: it retires the next instruction from whatever corner moves have led a pipeline into.
#![tactic(auto)]

#[cfg(test)]
mod cores;
#[cfg(test)]
mod corner_tests;
#[cfg(test)]
mod question_tests;
