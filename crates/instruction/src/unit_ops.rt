ghost use Rattle.std.specs.Prelude.{◌≡◌, ◌<◌};
ghost use Rattle.instruction.specs.Named.{unit_op, unit_op_number};

use crate::numbers::UnitOp;

impl UnitOp {
    /// The operation that the low four bits name.
    pub fn named(bits: u8) -> UnitOp
        ensures { result ≡ unit_op bits }
    {
        UnitOp { number: bits % 16 }
    }

    /// Its number, as a unit is asked for it.
    pub fn number(self) -> u8
        ensures value { result ≡ unit_op_number self }
        ensures below { result < 16 }
    {
        self.number
    }
}
