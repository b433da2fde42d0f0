ghost use Rattle.std.specs.Prelude.{◌≡◌};
ghost use Rattle.running.specs.declared.answers.JobRunFault.TheVariants.{Check, Run};

use checking::{CheckFault, JobFigures};
use pipes::{RunFigures, RunRefusal};

/// How the run of a job went: how large the job is, what became of its moves, and whether it
/// halted.
#[derive(Clone, Copy, Debug, PartialEq)]
pub struct JobRun {
    pub job: JobFigures,
    pub run: RunFigures,
    pub halted: bool,
}

/// Why a job is not run: it is refused, or the log has too few free places.
#[derive(Clone, Copy, Debug, PartialEq)]
pub enum JobRunFault {
    Check(CheckFault),
    Run(RunRefusal),
}

impl From<CheckFault> for JobRunFault {
    ghost from_gives = { λ fault refused. refused ≡ Check fault };

    fn from(fault: CheckFault) -> JobRunFault {
        JobRunFault::Check(fault)
    }
}

impl From<RunRefusal> for JobRunFault {
    ghost from_gives = { λ refusal refused. refused ≡ Run refusal };

    fn from(refusal: RunRefusal) -> JobRunFault {
        JobRunFault::Run(refusal)
    }
}
