ghost use Rattle.std.specs.Prelude.{◌≡◌};
ghost use Rattle.job.specs.declared.faults.JobFault.TheVariants.{Image};

use image::ImageFault;
use layout::LayoutFault;
use moves::MoveListFault;

/// Why bytes are no job: the part's refusal whole, with the byte at which the part begins, or the
/// first byte left over.
#[derive(Clone, Copy, Debug, PartialEq)]
pub enum JobFault {
    Image(ImageFault),
    Layout { at: usize, fault: LayoutFault },
    Moves { at: usize, fault: MoveListFault },
    LeftOver { at: usize },
}

impl From<ImageFault> for JobFault {
    ghost from_gives = { λ fault job_fault. job_fault ≡ Image fault };

    /// An image begins a job, so its fault needs no place.
    fn from(fault: ImageFault) -> JobFault {
        JobFault::Image(fault)
    }
}
