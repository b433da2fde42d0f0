ghost use Rattle.job.specs.Reading.{job_of};
ghost use Rattle.checking.specs.Checked.{Checked};

use crate::answers::{CheckFault, JobFigures};
use crate::fitting::fit_job;
use unit::Unit;

/// Reads and fits a job, and answers how large it is.
pub fn check_job<U: Unit>(bytes: &[u8]) -> Result<JobFigures, CheckFault>
    ensures { Checked U.Unit.KNOWN (job_of bytes.now) result }
{
    Ok(fit_job::<U>(bytes)?.figures())
}
