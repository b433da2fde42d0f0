//! Tests of what stands behind the interfaces: memories, windows, units, and the log.
#![tactic(auto)]

#[cfg(test)]
mod log_tests;
#[cfg(test)]
mod memory_tests;
#[cfg(test)]
mod table_tests;
#[cfg(test)]
mod unit_tests;
#[cfg(test)]
mod window_tests;
