use crate::bindings::Source;
use crate::results::PipeResult;
use effect::{Effect, Fetched};

/// How far a packet has come: executed, it carries its effect and what it still owes.
// No `Option` of the two: that a packet waits is a state, and moves ask for it by its name.
#[derive(Clone, Copy)]
pub enum PacketState {
    Waiting,
    Executed {
        effect: Effect,
        owed: Option<PipeResult>,
    },
}

/// Whether a packet counts. A killed one keeps its state, and leaves without a trace.
#[derive(Clone, Copy, Debug, PartialEq)]
pub enum Standing {
    Live,
    Killed,
}

/// An instruction on its way up, or a place past the end of the image.
#[derive(Clone, Copy)]
pub struct Packet {
    pub fetched: Fetched,
    pub guess: u32,
    pub first: Source,
    pub second: Source,
    pub state: PacketState,
    pub standing: Standing,
}
