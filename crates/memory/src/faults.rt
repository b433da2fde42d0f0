ghost use Rattle.std.specs.Prelude.{◌≡◌};
ghost use Rattle.memory.specs.Words.{access_number};
ghost use Rattle.memory.specs.Windows.{window_number};

use crate::access::{AccessFault, WindowFault};

// One cast for each enum: a trait would ask for the same line in an impl of each.
impl AccessFault {
    /// The refusal's number.
    pub fn number(self) -> u8
        ensures { result ≡ access_number self }
    {
        self as u8
    }
}

impl WindowFault {
    /// The refusal's number.
    pub fn number(self) -> u8
        ensures { result ≡ window_number self }
    {
        self as u8
    }
}
