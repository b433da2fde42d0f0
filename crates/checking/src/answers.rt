ghost use Rattle.std.specs.Prelude.{◌≡◌};
ghost use Rattle.checking.specs.declared.answers.CheckFault.TheVariants.{Job, Fit};

use fit::FitFault;
use job::JobFault;

/// How large a job is: how many records, stages and moves it has.
#[derive(Clone, Copy, Debug, PartialEq)]
pub struct JobFigures {
    pub records: u16,
    pub stages: usize,
    pub moves: u16,
}

/// Why a job is refused: it cannot be read, or its image does not fit its layout.
#[derive(Clone, Copy, Debug, PartialEq)]
pub enum CheckFault {
    Job(JobFault),
    Fit(FitFault),
}

impl From<JobFault> for CheckFault {
    ghost from_gives = { λ fault check_fault. check_fault ≡ Job fault };

    fn from(fault: JobFault) -> CheckFault {
        CheckFault::Job(fault)
    }
}

impl From<FitFault> for CheckFault {
    ghost from_gives = { λ fault check_fault. check_fault ≡ Fit fault };

    fn from(fault: FitFault) -> CheckFault {
        CheckFault::Fit(fault)
    }
}
