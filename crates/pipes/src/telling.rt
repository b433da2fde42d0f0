ghost use Rattle.std.specs.Prelude.{◌≡◌};
ghost use Rattle.pipes.specs.Draining.{drain_number};
ghost use Rattle.pipes.specs.Questions.{move_number};
ghost use Rattle.pipes.specs.Running.{run_number};

use crate::answers::{DrainRefusal, MoveRefusal, RunRefusal};

// One cast for each enum: a trait would ask for the same line in an impl of each.
impl MoveRefusal {
    /// The number of the question that decided.
    pub fn number(self) -> u8
        ensures { result ≡ move_number self }
    {
        self as u8
    }
}

impl RunRefusal {
    /// The refusal's number.
    pub fn number(self) -> u8
        ensures { result ≡ run_number self }
    {
        self as u8
    }
}

impl DrainRefusal {
    /// The number of the question that decided.
    pub fn number(self) -> u8
        ensures { result ≡ drain_number self }
    {
        self as u8
    }
}
