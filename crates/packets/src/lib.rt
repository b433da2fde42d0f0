//! What stands in a stage: packets with their bindings, results, and their meeting.
#![tactic(auto)]

pub use bindings::{Binding, Source};
pub use packets::{Packet, PacketState, Standing};
pub use results::PipeResult;
pub use slots::ResultSlot;
pub use stages::Stage;

mod bindings;
mod entering;
mod meeting;
mod packets;
mod questions;
mod results;
mod slots;
mod stages;
mod working;
