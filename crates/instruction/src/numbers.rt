ghost use Rattle.std.specs.Prelude.{◌<◌};

// Two types of one shape, so that no unit is asked for a register. One generic type for both would
// carry a phantom parameter, which every clause that makes a register would have to name.

/// One of the registers r0 to r15.
#[derive(Clone, Copy, Debug, PartialEq)]
pub struct Register {
    pub(crate) number: u8,
    ghost below: { number < 16 },
}

/// One of a unit's operations, 0 to 15.
#[derive(Clone, Copy, Debug, PartialEq)]
pub struct UnitOp {
    pub(crate) number: u8,
    ghost below: { number < 16 },
}
