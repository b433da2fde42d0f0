ghost use Rattle.job.specs.Reading.{core_of};
ghost use Rattle.checking.specs.Checked.{CoreFittedAs};

use crate::answers::CheckFault;
use fit::{Fitted, fit};
use job::{Core, read_core};
use unit::Unit;

/// Reads a core and fits its image to its layout, for a unit.
pub fn fit_core<U: Unit>(bytes: &[u8]) -> Result<Fitted<'_>, CheckFault>
    ensures { CoreFittedAs U.Unit.KNOWN (core_of bytes.now) result }
{
    let Core { image, layout } = read_core(bytes)?;
    Ok(fit::<U>(image, layout)?)
}
