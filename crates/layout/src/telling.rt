ghost use Rattle.std.specs.Prelude.{◌≡◌};
ghost use Rattle.layout.specs.Faults.{set_number, layout_refusal};

use crate::faults::{LayoutFault, SetFault};
use fields::{EntriesFault, Refusal};

impl SetFault {
    /// The number of the question that decided.
    // One cast for each enum: a trait would ask for the same line in an impl of each.
    pub fn number(self) -> u8
        ensures { result ≡ set_number self }
    {
        self as u8
    }
}

impl From<LayoutFault> for Refusal {
    ghost from_gives = { λ f r. r ≡ layout_refusal f };

    /// The number and the byte place, which counts from the layout's first byte.
    // A match, since cases that hold something can have no numbers of their own.
    fn from(fault: LayoutFault) -> Refusal {
        let (number, place) = match fault {
            LayoutFault::Head(fault) => return fault.refusal(10, 11, 12),
            LayoutFault::Stages => (13, 5),
            LayoutFault::Sets(EntriesFault::Short { handed }) => (14, handed),
            LayoutFault::Sets(EntriesFault::Entry { index, fault }) => {
                (fault.number(), 6 + 4 * usize::from(index))
            }
        };
        Refusal { number, place }
    }
}
