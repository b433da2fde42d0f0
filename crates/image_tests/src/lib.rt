//! Tests of the reader of images: every question with its byte place, and both ends of every bound.
#![tactic(auto)]

#[cfg(test)]
mod decoding_tests;
#[cfg(test)]
mod head_tests;
#[cfg(test)]
mod images;
#[cfg(test)]
mod order_tests;
#[cfg(test)]
mod record_tests;
