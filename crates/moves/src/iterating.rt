ghost use Rattle.std.specs.Prelude.{◌≡◌, ◌≤◌, length};
ghost use Rattle.std.proofs.Common.{arith};
ghost use Rattle.std.proofs.lemmas.List.{length-map};
ghost use Rattle.moves.specs.Meaning.{moves_in, left};
ghost use Rattle.moves.specs.Reading.{entry_in};

use crate::kinds::Move;
use crate::lists::MoveList;
use fields::{Elements, Row};

impl<'a> Row for MoveList<'a> {
    type Element = Move;

    ghost elements = { moves_in };

    ghost few = { λ l. Prim.omega (arith, length-map l.entries.now entry_in, l.read.0) };

    fn element(&self, index: u16) -> Option<Move> {
        self.get(index)
    }
}

impl<'a> MoveList<'a> {
    /// Its moves, the first first: at most 16,000.
    #[tactic(auto, using(crate::proofs::Scanned::list_count))]
    pub fn iter(&self) -> Elements<MoveList<'a>>
        ensures left { left result ≡ moves_in self.now }
        ensures bound { length (left result) ≤ 16000 }
    {
        Elements::of(*self)
    }
}

impl<'a> IntoIterator for &MoveList<'a> {
    type Item = Move;

    type IntoIter = Elements<MoveList<'a>>;

    ghost into_iter_gives = { λ list moves. (left moves ≡ moves_in list.now)
        × (length (left moves) ≤ 16000) };

    fn into_iter(self) -> Elements<MoveList<'a>> {
        self.iter()
    }
}
