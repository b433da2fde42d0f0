ghost use Rattle.moves.specs.Reading.{WasRead};

/// A move list that was read, so that each of its entries is a move.
#[derive(Clone, Copy)]
pub struct MoveList<'a> {
    pub(crate) entries: &'a [[u8; 2]],
    ghost read: { WasRead entries.now },
}
