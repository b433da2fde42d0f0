ghost use Rattle.job.specs.Reading.{job_of};
ghost use Rattle.checking.specs.Checked.{FittedAs};

use crate::answers::CheckFault;
use crate::fitted::FittedJob;
use fit::fit;
use job::{Job, read_job};
use unit::Unit;

/// Reads a job and fits its image to its layout, for a unit.
pub fn fit_job<U: Unit>(bytes: &[u8]) -> Result<FittedJob<'_>, CheckFault>
    ensures { FittedAs U.Unit.KNOWN (job_of bytes.now) result }
{
    let Job {
        image,
        layout,
        moves,
    } = read_job(bytes)?;
    let fitted = fit::<U>(image, layout)?;
    Ok(FittedJob { fitted, moves })
}
