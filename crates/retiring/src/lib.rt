//! From the bytes of an image and a layout to the drains of that core, an instruction each.
#![tactic(auto)]

pub use answers::CoreDrained;
pub use cores::drain_core;

mod answers;
mod cores;
mod drains;
