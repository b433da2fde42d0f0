ghost use Rattle.std.specs.Prelude.{◌≡◌};
ghost use Rattle.layout.specs.Meaning.{sets_in};
ghost use Rattle.moves.specs.Decoding.{number_of};
ghost use Rattle.stepper.specs.View.{world_of};
ghost use Rattle.pipes.specs.Moving.{moved};

use crate::accepting::accept;
use crate::questions::ask;
use effect::Retirement;
use image::Image;
use layout::Layout;
use memory::{Memory, Readable};
use moves::{Move, MoveKind};
use pipes::{MoveRefusal, Pipes};
use unit::Unit;

/// Makes a move, or turns it away with everything as it stood. Answers a record exactly where a
/// live packet retired.
// Image and layout are lent beside the pipes: a move changes the pipes alone, and the pipeline
// holds all three with its invariants.
pub fn make<U: Unit, M: Memory>(
    pipes: &mut Pipes,
    image: &Image<'_>,
    layout: &Layout<'_>,
    next: Move,
    unit: &U,
    memory: &mut M,
) -> Result<Option<Retirement>, MoveRefusal>
    ensures made { record
        { answer = result; pipes = pipes.new; words = M.Readable.words memory.new }
        ≡ moved (world_of (U.Unit.table unit.now) image.now) (sets_in layout.now)
        pipes.old (M.Readable.words memory.old) (number_of next.kind) next.place }
    ensures kept { M.Memory.kept memory.new ≡ M.Memory.kept memory.old }
{
    if pipes.halted {
        return Err(MoveRefusal::Halted);
    }
    ask(pipes, layout, next)?;
    Ok(accept(pipes, image, layout, next, unit, memory))
}

/// The same for any two numbers as kind and place.
// Two numbers, and not a `Move`: any two may be asked, and the call itself answers 31 or 32.
pub fn make_move<U: Unit, M: Memory>(
    pipes: &mut Pipes,
    image: &Image<'_>,
    layout: &Layout<'_>,
    kind: u8,
    place: u8,
    unit: &U,
    memory: &mut M,
) -> Result<Option<Retirement>, MoveRefusal>
    ensures made { record
        { answer = result; pipes = pipes.new; words = M.Readable.words memory.new }
        ≡ moved (world_of (U.Unit.table unit.now) image.now) (sets_in layout.now)
        pipes.old (M.Readable.words memory.old) kind place }
    ensures kept { M.Memory.kept memory.new ≡ M.Memory.kept memory.old }
{
    match MoveKind::try_from(kind) {
        Ok(kind) => make(pipes, image, layout, Move { kind, place }, unit, memory),
        // Halted is asked before the kind is: a move of an unknown kind on a halted core is refused
        // as halted.
        Err(_) if pipes.halted => Err(MoveRefusal::Halted),
        Err(_) => Err(MoveRefusal::UnknownKind),
    }
}
