ghost use Rattle.std.specs.Prelude.{◌≡◌};
ghost use Rattle.std.specs.Option.{ok_or};
ghost use Rattle.moves.specs.declared.faults.MoveFault.TheVariants.{Kind};
ghost use Rattle.moves.specs.Decoding.{number_of, kind_of, fits, move_of};

use crate::faults::MoveFault;
use crate::kinds::{Move, MoveKind};

impl TryFrom<u8> for MoveKind {
    type Error = MoveFault;

    ghost try_from_gives = { λ n r. r ≡ ok_or (kind_of n) Kind };

    /// The kind of a number, 1 to 8.
    fn try_from(number: u8) -> Result<MoveKind, MoveFault> {
        match number {
            1 => Ok(MoveKind::Fetch),
            2 => Ok(MoveKind::Raise),
            3 => Ok(MoveKind::Lower),
            4 => Ok(MoveKind::Execute),
            5 => Ok(MoveKind::Insert),
            6 => Ok(MoveKind::Read),
            7 => Ok(MoveKind::Retire),
            8 => Ok(MoveKind::Drop),
            _ => Err(MoveFault::Kind),
        }
    }
}

impl MoveKind {
    /// Its number, 1 to 8.
    // One cast for each enum: a trait would ask for the same line in an impl of each.
    pub fn number(self) -> u8
        ensures { result ≡ number_of self }
    {
        self as u8
    }

    /// May a list name this place for the kind?
    // A match, since which places a kind has is no order of the kinds.
    fn fits(self, place: u8) -> bool
        ensures { result ≡ fits self place }
    {
        match self {
            MoveKind::Fetch | MoveKind::Retire | MoveKind::Drop => place == 0,
            _ => place <= 15,
        }
    }
}

impl Move {
    /// The move of two bytes, or why they are none.
    pub fn decode(kind: u8, place: u8) -> Result<Move, MoveFault>
        ensures { result ≡ move_of kind place }
    {
        let kind = MoveKind::try_from(kind)?;
        if kind.fits(place) {
            Ok(Move { kind, place })
        } else {
            Err(MoveFault::Place)
        }
    }
}
