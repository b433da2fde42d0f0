ghost use Rattle.std.specs.Prelude.{◌≡◌, Some};
ghost use Rattle.running.specs.Figures.{job_run_text};
ghost use Rattle.running.specs.Refusals.{job_run_refusal};

use crate::answers::{JobRun, JobRunFault};
use fields::Refusal;
use pipes::RunFigures;
use std::fmt;

impl From<JobRunFault> for Refusal {
    ghost from_gives = { λ fault refusal. refusal ≡ job_run_refusal fault };

    /// The number and the byte place, which counts from the job's first byte; a short log has place
    /// 0.
    fn from(fault: JobRunFault) -> Refusal {
        match fault {
            JobRunFault::Check(fault) => Refusal::from(fault),
            JobRunFault::Run(fault) => Refusal {
                number: fault.number(),
                place: 0,
            },
        }
    }
}

impl fmt::Display for JobRun {
    ghost output = { λ answer. Some (job_run_text answer) };

    fn fmt<W: fmt::Write>(&self, f: &mut fmt::Formatter<W>) -> fmt::Result {
        let RunFigures {
            accepted,
            turned_away,
            live,
        } = self.run;
        let halted = u8::from(self.halted);
        write!(f, "{live} {accepted} {turned_away} {halted}")
    }
}
