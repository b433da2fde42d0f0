ghost use Rattle.std.specs.Prelude.{◌≡◌};
ghost use Rattle.job.specs.Faults.{moved_on, job_refusal};

use crate::faults::JobFault;
use fields::Refusal;

/// A part's refusal, with its place counted from the job's first byte.
fn moved_on(refusal: Refusal, at: usize) -> Refusal
    ensures { result ≡ moved_on refusal at }
{
    Refusal {
        number: refusal.number,
        place: at.saturating_add(refusal.place),
    }
}

impl From<JobFault> for Refusal {
    ghost from_gives = { λ f r. r ≡ job_refusal f };

    /// The number and the byte place, which counts from the job's first byte.
    // A match, since cases that hold something can have no numbers of their own.
    fn from(fault: JobFault) -> Refusal {
        match fault {
            JobFault::Image(fault) => Refusal::from(fault),
            JobFault::Layout { at, fault } => moved_on(Refusal::from(fault), at),
            JobFault::Moves { at, fault } => moved_on(Refusal::from(fault), at),
            JobFault::LeftOver { at } => Refusal {
                number: 24,
                place: at,
            },
        }
    }
}
