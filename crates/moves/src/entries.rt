#![tactic(auto, using(crate::proofs::Scanned::list_count, crate::proofs::Scanned::list_past, crate::proofs::Scanned::list_at))]

ghost use Rattle.std.specs.Prelude.{◌≡◌, ◌≤◌, length};
ghost use Rattle.std.specs.List.{slice_get};
ghost use Rattle.moves.specs.Meaning.{moves_in};

use crate::kinds::Move;
use crate::lists::MoveList;

impl<'a> MoveList<'a> {
    /// How many moves there are: at most 16,000.
    pub fn count(&self) -> u16
        ensures value { result ≡ length (moves_in self.now) }
        ensures bound { result ≤ 16000 }
    {
        self.entries.len() as u16
    }

    /// The move of this number, from 0; none at or past the count.
    pub fn get(&self, index: u16) -> Option<Move>
        ensures { result ≡ slice_get (moves_in self.now) index }
    {
        let [kind, place] = *self.entries.get(usize::from(index))?;
        Move::decode(kind, place).ok()
    }
}
