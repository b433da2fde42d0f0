ghost use Rattle.std.specs.Prelude.{◌≡◌};
ghost use Rattle.moves.specs.declared.faults.MoveListFault.TheVariants.{Head, Moves};

use fields::{EntriesFault, HeadFault};

/// Why two bytes are no move; its number is that of the question that decided.
#[derive(Clone, Copy, Debug, PartialEq)]
pub enum MoveFault {
    Kind = 22,
    Place = 23,
}

/// Why bytes are no move list: the reader's refusal, which holds the decoder's whole.
#[derive(Clone, Copy, Debug, PartialEq)]
pub enum MoveListFault {
    Head(HeadFault),
    Count,
    Moves(EntriesFault<MoveFault>),
}

impl From<HeadFault> for MoveListFault {
    ghost from_gives = { λ fault refused. refused ≡ Head fault };

    fn from(fault: HeadFault) -> MoveListFault {
        MoveListFault::Head(fault)
    }
}

impl From<EntriesFault<MoveFault>> for MoveListFault {
    ghost from_gives = { λ fault refused. refused ≡ Moves fault };

    fn from(fault: EntriesFault<MoveFault>) -> MoveListFault {
        MoveListFault::Moves(fault)
    }
}
