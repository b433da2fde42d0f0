ghost use Rattle.std.specs.Prelude.{◌≡◌, length};
ghost use Rattle.layout.specs.Meaning.{sets_in};
ghost use Rattle.moves.specs.declared.kinds.MoveKind.TheVariants.{Fetch};
ghost use Rattle.draining.specs.Policy.{move_to, highest, upward, downward, chosen};

use crate::finding::{highest, lowest};
use crate::wanting::wants;
use layout::Layout;
use moves::{Move, MoveKind};
use pipes::Pipes;

/// The result of a stage goes down, and out at the bottom.
fn downward(stage: u8) -> Move
    ensures { result ≡ downward stage }
{
    let kind = if stage == 0 {
        MoveKind::Drop
    } else {
        MoveKind::Lower
    };
    Move { kind, place: stage }
}

fn fetch() -> Move
    ensures { result ≡ move_to Fetch 0 }
{
    Move {
        kind: MoveKind::Fetch,
        place: 0,
    }
}

/// What the highest packet wants; without a packet, a fetch.
#[tactic(auto, using(crate::proofs::Scans::highest_some))]
fn upward(pipes: &Pipes, layout: &Layout<'_>) -> Move
    ensures { result ≡ upward (sets_in layout.now) pipes.now
        (highest pipes.now.stages (length (sets_in layout.now))) }
{
    let Some(stage) = highest(pipes, layout) else {
        return fetch();
    };
    let Some(packet) = &pipes.stages[stage].packet else {
        unreachable!()
    };
    wants(packet, layout, stage as u8)
}

/// The move that a drain makes next: results first, the lowest first; then the highest packet.
pub fn choose(pipes: &Pipes, layout: &Layout<'_>) -> Move
    ensures { result ≡ chosen (sets_in layout.now) pipes.now }
{
    match lowest(pipes, layout) {
        Some(stage) => downward(stage as u8),
        None => upward(pipes, layout),
    }
}
