//! Tests of the readers of layouts and of move lists: every question with its byte place, and both
//! ends of every bound.
#![tactic(auto)]

#[cfg(test)]
mod layout_tests;
#[cfg(test)]
mod move_tests;
#[cfg(test)]
mod told;
