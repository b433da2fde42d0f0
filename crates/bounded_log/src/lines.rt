ghost use Rattle.std.specs.Prelude.{◌≡◌, ℕ, List, Some, IfOk, string_bytes};
ghost use Rattle.bounded_log.specs.Lines.{line_of};

use std::alloc::{AllocError, Global};
use std::fmt::Display;

/// A record that can write its own line: its numbers in decimal, a blank between.
pub trait Line {
    ghost numbers: { Self → List ℕ };

    fn line(&self, heap: Global) -> Result<String, AllocError>
        ensures { IfOk result (λ text. string_bytes text ≡ line_of (numbers self.now)) };
}

/// A record that is printed as its line.
pub trait PrintedLine: Line + Display {
    // What is printed is the line of the numbers.
    ghost written: { (x : Self) → Self.output x ≡ Some (line_of (Self.numbers x)) };
}
