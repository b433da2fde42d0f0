ghost use Rattle.std.specs.Prelude.{◌≡◌, Some, refl};
ghost use Rattle.bounded_log.specs.Lines.{line_of};
ghost use Rattle.effect.specs.Retirements.{kind_of, target_of, word_of, numbers_of};

use crate::actions::{Action, Retirement};
use bounded_log::{Line, PrintedLine};
use std::alloc::{AllocError, Global};
use std::fmt;

// Each number of a record is a question of its own, so each has its match.
impl Retirement {
    /// 0 for nothing, 1 for a register, 2 for memory, 3 for a trap, 4 for the halt.
    pub fn kind(self) -> u8
        ensures { result ≡ kind_of self.action }
    {
        // A case with fields carries no number of its own, so the numbers stand here.
        match self.action {
            Action::Nothing => 0,
            Action::SetRegister { .. } => 1,
            Action::StoreWord { .. } => 2,
            Action::Trap { .. } => 3,
            Action::Halt => 4,
        }
    }

    /// The register's number or the address; 15 for a trap.
    pub fn target(self) -> u32
        ensures { result ≡ target_of self.action }
    {
        match self.action {
            Action::Nothing | Action::Halt => 0,
            Action::SetRegister { register, .. } => u32::from(register.number()),
            Action::StoreWord { address, .. } => address,
            Action::Trap { .. } => 15,
        }
    }

    /// The word that was written.
    pub fn word(self) -> u32
        ensures { result ≡ word_of self.action }
    {
        match self.action {
            Action::Nothing | Action::Halt => 0,
            Action::SetRegister { word, .. }
            | Action::StoreWord { word, .. }
            | Action::Trap { word } => word,
        }
    }
}

impl fmt::Display for Retirement {
    ghost output = { λ r. Some (line_of (numbers_of r)) };

    fn fmt<W: fmt::Write>(&self, f: &mut fmt::Formatter<W>) -> fmt::Result {
        let place = self.place;
        let kind = self.kind();
        let target = self.target();
        let word = self.word();
        write!(f, "{place} {kind} {target} {word}")
    }
}

impl Line for Retirement {
    ghost numbers = { numbers_of };

    fn line(&self, heap: Global) -> Result<String, AllocError> {
        self.to_string(heap)
    }
}

impl PrintedLine for Retirement {
    ghost written = { λ _. refl };
}
