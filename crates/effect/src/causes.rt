ghost use Rattle.std.specs.Prelude.{◌≡◌};
ghost use Rattle.effect.specs.Effects.{cause_number};

use unit::Fault;

/// Why an instruction traps: an address outside the memory, a place past the end of the image, or a
/// fault of the unit.
#[derive(Clone, Copy)]
pub(crate) enum Cause {
    Outside,
    PastTheEnd,
    Unit(Fault),
}

impl Cause {
    /// The number that a trap's word tells.
    pub(crate) fn number(self) -> u32
        ensures { result ≡ cause_number self }
    {
        match self {
            Cause::Outside => 2,
            Cause::PastTheEnd => 3,
            Cause::Unit(fault) => 16 + u32::from(fault.number),
        }
    }
}
