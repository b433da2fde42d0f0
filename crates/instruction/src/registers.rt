ghost use Rattle.std.specs.Prelude.{◌≡◌, ◌<◌};
ghost use Rattle.instruction.specs.Named.{register, register_number};

use crate::numbers::Register;

impl Register {
    /// The register that a trap writes.
    pub const TRAP: Register = Register { number: 15 };

    /// The register that the low four bits name.
    pub fn named(bits: u8) -> Register
        ensures { result ≡ register bits }
    {
        Register { number: bits % 16 }
    }

    pub fn number(self) -> u8
        ensures value { result ≡ register_number self }
        ensures below { result < 16 }
    {
        self.number
    }

    /// Its number, as an index into sixteen registers.
    pub fn index(self) -> usize
        ensures value { result ≡ register_number self }
        ensures below { result < 16 }
    {
        usize::from(self.number)
    }
}
