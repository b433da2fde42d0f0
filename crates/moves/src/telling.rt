ghost use Rattle.std.specs.Prelude.{◌≡◌};
ghost use Rattle.moves.specs.Faults.{move_number, move_offset, list_refusal};

use crate::faults::{MoveFault, MoveListFault};
use fields::{EntriesFault, Refusal};

impl MoveFault {
    /// The number of the question that decided.
    // One cast for each enum: a trait would ask for the same line in an impl of each.
    pub fn number(self) -> u8
        ensures { result ≡ move_number self }
    {
        self as u8
    }

    /// Where the offending field lies in the move.
    // A match, since a case has one number, and that is the question's.
    pub fn offset(self) -> u8
        ensures { result ≡ move_offset self }
    {
        match self {
            MoveFault::Kind => 0,
            MoveFault::Place => 1,
        }
    }
}

impl From<MoveListFault> for Refusal {
    ghost from_gives = { λ f r. r ≡ list_refusal f };

    /// The number and the byte place, which counts from the list's first byte.
    // A match, since cases that hold something can have no numbers of their own.
    fn from(fault: MoveListFault) -> Refusal {
        let (number, place) = match fault {
            MoveListFault::Head(fault) => return fault.refusal(17, 18, 19),
            MoveListFault::Count => (20, 5),
            MoveListFault::Moves(EntriesFault::Short { handed }) => (21, handed),
            MoveListFault::Moves(EntriesFault::Entry { index, fault }) => (
                fault.number(),
                7 + 2 * usize::from(index) + usize::from(fault.offset()),
            ),
        };
        Refusal { number, place }
    }
}
