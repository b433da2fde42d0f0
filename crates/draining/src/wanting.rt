ghost use Rattle.std.specs.Prelude.{◌≡◌, ◌+◌};
ghost use Rattle.std.specs.Option.{option_map};
ghost use Rattle.instruction.specs.Named.{register_number};
ghost use Rattle.layout.specs.Meaning.{sets_in};
ghost use Rattle.pipes.specs.Questions.{some_able};
ghost use Rattle.draining.specs.Policy.{awaits, missing, onward, wants_word, wants};

use instruction::Register;
use layout::Layout;
use moves::{Move, MoveKind};
use packets::{Packet, PacketState, Source};
use pipes::some_able;

/// The register whose word a source still misses.
fn awaits(source: Source) -> Option<Register>
    ensures { option_map register_number result ≡ awaits source }
{
    match source {
        Source::Bound(binding) if !binding.valid => Some(binding.register),
        _ => None,
    }
}

/// The register whose word a packet still misses.
fn missing(packet: &Packet) -> Option<Register>
    ensures { option_map register_number result ≡ missing packet.now }
{
    awaits(packet.first).or_else(|| awaits(packet.second))
}

/// Up, and out at the top.
fn onward(layout: &Layout<'_>, stage: u8) -> Move
    ensures { result ≡ onward (sets_in layout.now) stage }
{
    if usize::from(stage) + 1 == layout.stages() {
        Move {
            kind: MoveKind::Retire,
            place: 0,
        }
    } else {
        Move {
            kind: MoveKind::Raise,
            place: stage,
        }
    }
}

/// A packet that waits reads a word that it misses; with all of them it executes in the last stage
/// that can.
fn wants_word(packet: &Packet, layout: &Layout<'_>, stage: u8) -> Move
    ensures { result ≡ wants_word (missing packet.now)
        (some_able (sets_in layout.now) (stage + 1) packet.now.fetched.instruction) stage }
{
    let (kind, place) = match missing(packet) {
        Some(register) => (MoveKind::Read, register.number()),
        None if some_able(layout, usize::from(stage) + 1, packet) => (MoveKind::Raise, stage),
        None => (MoveKind::Execute, stage),
    };
    Move { kind, place }
}

/// What the packet of a stage wants, where no result is in flight.
pub(crate) fn wants(packet: &Packet, layout: &Layout<'_>, stage: u8) -> Move
    ensures { result ≡ wants (sets_in layout.now) stage packet.now }
{
    if !packet.is_live() {
        return onward(layout, stage);
    }
    match packet.state {
        PacketState::Waiting => wants_word(packet, layout, stage),
        PacketState::Executed { owed: Some(_), .. } => Move {
            kind: MoveKind::Insert,
            place: stage,
        },
        PacketState::Executed { owed: None, .. } => onward(layout, stage),
    }
}
