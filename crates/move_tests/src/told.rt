//! What stands in a pipeline, told so that it can be compared.
// Told in short forms of its own: the tables name a packet on one line, and where a result or a
// word has its register's number they show the number.
use packets::{Packet, PacketState, PipeResult, Source, Stage};

/// A result: a register's number and its word, or the place where fetch goes on.
#[derive(Clone, Copy, Debug, PartialEq)]
pub(crate) enum News {
    Value(u8, u32),
    WrongBranch(u32),
    Trap(u32),
}

/// How far a packet has come.
#[derive(Clone, Copy, Debug, PartialEq)]
pub(crate) enum Work {
    Waiting,
    Owes(News),
    Done,
}

pub(crate) const LIVE: bool = true;

pub(crate) const KILLED: bool = false;

/// A packet: its place, whether it is live or killed, its work, and the words of its sources, as
/// far as they have come.
pub(crate) type ToldPacket = (u32, bool, Work, [Option<u32>; 2]);

fn told_result(found: PipeResult) -> News {
    match found {
        PipeResult::Value { register, word } => News::Value(register.number(), word),
        PipeResult::WrongBranch { target } => News::WrongBranch(target),
        PipeResult::Trap { handler } => News::Trap(handler),
    }
}

fn told_state(state: PacketState) -> Work {
    match state {
        PacketState::Waiting => Work::Waiting,
        PacketState::Executed { owed, .. } => {
            owed.map_or(Work::Done, |owed| Work::Owes(told_result(owed)))
        }
    }
}

fn told_source(source: Source) -> Option<u32> {
    match source {
        Source::Absent => None,
        Source::Literal(word) => Some(word),
        Source::Bound(binding) if binding.valid => Some(binding.word),
        Source::Bound(_) => None,
    }
}

fn told_packet(packet: &Packet) -> ToldPacket {
    let words = [told_source(packet.first), told_source(packet.second)];
    (
        packet.fetched.place,
        packet.is_live(),
        told_state(packet.state),
        words,
    )
}

/// The packet and the result of a stage.
pub(crate) fn told_stage(stage: &Stage) -> (Option<ToldPacket>, Option<News>) {
    let packet = stage.packet.as_ref().map(told_packet);
    let result = stage.result.held.map(told_result);
    (packet, result)
}
