ghost use Rattle.std.specs.Prelude.{◌≡◌};
ghost use Rattle.fit.specs.Fitting.{fit_refusal};

use crate::faults::FitFault;
use fields::Refusal;

impl From<FitFault> for Refusal {
    ghost from_gives = { λ f r. r ≡ fit_refusal f };

    /// The number, and the byte place of the record, which counts from the image's first byte.
    // A match, since cases that hold something can have no numbers of their own.
    fn from(fault: FitFault) -> Refusal {
        let (number, index) = match fault {
            FitFault::NoStage { index } => (25, index),
            FitFault::UnknownOperation { index } => (26, index),
        };
        Refusal {
            number,
            place: 9 + 8 * usize::from(index),
        }
    }
}
