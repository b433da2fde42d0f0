ghost use Rattle.std.specs.Prelude.{◌≡◌, Some};
ghost use Rattle.image.specs.Meaning.{program};
ghost use Rattle.layout.specs.Meaning.{sets_in};
ghost use Rattle.moves.specs.Meaning.{moves_in};
ghost use Rattle.checking.specs.Checked.{check_refusal, sizes, figures_of, contents_of};
ghost use Rattle.checking.specs.Figures.{figures_text};

use crate::answers::{CheckFault, JobFigures};
use crate::fitted::FittedJob;
use fields::Refusal;
use image::Image;
use layout::Layout;
use moves::MoveList;
use std::fmt;

impl From<CheckFault> for Refusal {
    ghost from_gives = { λ f r. r ≡ check_refusal f };

    /// The number and the byte place, which counts from the job's first byte.
    fn from(fault: CheckFault) -> Refusal {
        match fault {
            CheckFault::Job(fault) => Refusal::from(fault),
            CheckFault::Fit(fault) => Refusal::from(fault),
        }
    }
}

impl JobFigures {
    /// The figures of a job's three parts.
    pub fn of(image: &Image<'_>, layout: &Layout<'_>, moves: &MoveList<'_>) -> JobFigures
        ensures { result ≡ sizes (program image.now) (sets_in layout.now) (moves_in moves.now) }
    {
        JobFigures {
            records: image.count(),
            stages: layout.stages(),
            moves: moves.count(),
        }
    }
}

impl<'a> FittedJob<'a> {
    /// How large the job is.
    pub fn figures(&self) -> JobFigures
        ensures { result ≡ figures_of (contents_of self.now) }
    {
        JobFigures::of(&self.fitted.image, &self.fitted.layout, &self.moves)
    }
}

impl fmt::Display for JobFigures {
    ghost output = { λ figures. Some (figures_text figures) };

    fn fmt<W: fmt::Write>(&self, f: &mut fmt::Formatter<W>) -> fmt::Result {
        let JobFigures {
            records,
            stages,
            moves,
        } = *self;
        write!(f, "{records} {stages} {moves}")
    }
}
