ghost use Rattle.std.specs.Prelude.{◌≡◌, ℕ, false, Result};
ghost use Rattle.unit.specs.declared.outcome.Fault.{Fault};
ghost use Rattle.fields.specs.Numbers.{holds};
ghost use Rattle.unit.specs.Faults.{FaultInRange, faulty};

use crate::outcome::Outcome;

/// What computes. A unit means its table: an outcome for each operation and two words.
pub trait Unit {
    /// The operations that the unit knows: bit k stands for operation k.
    const KNOWN: u16;

    ghost KNOWN: { ℕ };

    ghost table: { Self → ℕ → ℕ → ℕ → Result ℕ Fault };

    /// Asks for the outcome of an operation. Asking changes nothing.
    fn ask(&self, operation: u8, a: u32, b: u32) -> Outcome
        ensures value { result ≡ table self.now operation a b }
        ensures fault { FaultInRange result }
        ensures unknown { holds KNOWN operation ≡ false → result ≡ faulty 15 };
}
