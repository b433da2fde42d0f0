ghost use Rattle.std.proofs.Common.{arith};
ghost use Rattle.moves.specs.Reading.{move_wrong};

use crate::faults::MoveFault;
use crate::kinds::Move;
use fields::Entries;

/// The entries of a move list, two bytes each.
#[derive(Clone, Copy)]
pub(crate) struct MoveEntries;

impl Entries<2> for MoveEntries {
    type Fault = MoveFault;

    ghost fault = { λ _ index bytes. move_wrong bytes };

    fn judge(&self, _index: u16, entry: &[u8; 2]) -> Result<(), MoveFault> {
        let [kind, place] = *entry;
        Move::decode(kind, place).map(|_| ())
    }

    ghost some = { Prim.omega arith };
}
