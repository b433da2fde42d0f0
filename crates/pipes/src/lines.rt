ghost use Rattle.std.specs.Prelude.{Some, refl};
ghost use Rattle.bounded_log.specs.Lines.{line_of};
ghost use Rattle.pipes.specs.Lines.{drain_numbers};

use crate::answers::Drain;
use bounded_log::{Line, PrintedLine};
use std::alloc::{AllocError, Global};
use std::fmt;

impl fmt::Display for Drain {
    ghost output = { λ d. Some (line_of (drain_numbers d)) };

    fn fmt<W: fmt::Write>(&self, f: &mut fmt::Formatter<W>) -> fmt::Result {
        let Drain { moves, retirement } = *self;
        write!(f, "{retirement} {moves}")
    }
}

impl Line for Drain {
    ghost numbers = { drain_numbers };

    fn line(&self, heap: Global) -> Result<String, AllocError> {
        self.to_string(heap)
    }
}

impl PrintedLine for Drain {
    ghost written = { λ _. refl };
}
