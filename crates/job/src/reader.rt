ghost use Rattle.std.specs.Prelude.{◌≡◌, Ok, Err};
ghost use Rattle.job.specs.Reading.{job_of};
ghost use Rattle.job.specs.Meaning.{told};

use crate::faults::JobFault;
use crate::states::{Job, JobBytes};

/// The job that the bytes are.
pub fn read_job(bytes: &[u8]) -> Result<Job<'_>, JobFault>
    ensures { elim result [
      | Ok job ↦ job_of bytes.now ≡ Ok (told job)
      | Err fault ↦ job_of bytes.now ≡ Err fault
    ] }
{
    JobBytes::new(bytes).image()?.layout()?.moves()
}
