ghost use Rattle.std.specs.Prelude.{◌≡◌, Ok, Err};
ghost use Rattle.job.specs.Reading.{core_of};
ghost use Rattle.job.specs.Meaning.{core_told};

use crate::faults::JobFault;
use crate::states::{Core, JobBytes};

/// The core that the bytes are.
pub fn read_core(bytes: &[u8]) -> Result<Core<'_>, JobFault>
    ensures { elim result [
      | Ok core ↦ core_of bytes.now ≡ Ok (core_told core)
      | Err fault ↦ core_of bytes.now ≡ Err fault
    ] }
{
    JobBytes::new(bytes).image()?.layout()?.without_moves()
}
