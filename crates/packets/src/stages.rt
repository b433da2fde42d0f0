use crate::packets::Packet;
use crate::slots::ResultSlot;

/// A stage: a slot of the instruction pipe beside a slot of the result pipe.
#[derive(Clone, Copy)]
pub struct Stage {
    pub packet: Option<Packet>,
    pub result: ResultSlot,
}
