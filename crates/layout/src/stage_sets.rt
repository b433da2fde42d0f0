ghost use Rattle.std.specs.Prelude.{◌≡◌};
ghost use Rattle.std.proofs.Common.{arith};
ghost use Rattle.fields.specs.Scanning.{verdict};
ghost use Rattle.layout.specs.Reading.{set_in, set_wrong, set_wrong_at};

use crate::faults::SetFault;
use fields::Entries;

/// The sets of a layout of so many stages, the bottom's first.
#[derive(Clone, Copy)]
pub(crate) struct StageSets {
    pub(crate) stages: u8,
}

/// The number that the bytes of a set are.
pub(crate) fn number(set: &[u8; 4]) -> u32
    ensures { result ≡ set_in set.now }
{
    let [b3, b2, b1, b0] = *set;
    u32::from_be_bytes([b3, b2, b1, b0])
}

impl StageSets {
    /// Is this number a set of operations for a stage?
    fn check(&self, stage: u16, set: u32) -> Result<(), SetFault>
        ensures { result ≡ verdict (set_wrong self.now.stages stage set) }
    {
        if set % 4 != 0 || set / 128 % 512 != 0 {
            Err(SetFault::Unheard)
        } else if usize::from(stage) + 1 < usize::from(self.stages) && set / 32 % 4 != 0 {
            Err(SetFault::MemoryBelowTop)
        } else {
            Ok(())
        }
    }
}

impl Entries<4> for StageSets {
    type Fault = SetFault;

    ghost fault = { λ sets. set_wrong_at sets.stages };

    fn judge(&self, index: u16, entry: &[u8; 4]) -> Result<(), SetFault> {
        self.check(index, number(entry))
    }

    ghost some = { Prim.omega arith };
}
