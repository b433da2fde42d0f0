ghost use Rattle.std.specs.Prelude.{Some, refl};
ghost use Rattle.bounded_log.specs.Lines.{line_of};
ghost use Rattle.moves.specs.Lines.{move_numbers};

use crate::kinds::Move;
use bounded_log::{Line, PrintedLine};
use std::alloc::{AllocError, Global};
use std::fmt;

impl fmt::Display for Move {
    ghost output = { λ m. Some (line_of (move_numbers m)) };

    fn fmt<W: fmt::Write>(&self, f: &mut fmt::Formatter<W>) -> fmt::Result {
        let kind = self.kind.number();
        let place = self.place;
        write!(f, "{kind} {place}")
    }
}

impl Line for Move {
    ghost numbers = { move_numbers };

    fn line(&self, heap: Global) -> Result<String, AllocError> {
        self.to_string(heap)
    }
}

impl PrintedLine for Move {
    ghost written = { λ m. refl };
}
