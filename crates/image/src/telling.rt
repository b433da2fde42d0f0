ghost use Rattle.std.specs.Prelude.{◌≡◌};
ghost use Rattle.image.specs.Faults.{image_refusal};

use crate::faults::ImageFault;
use fields::{EntriesFault, Refusal};

impl From<ImageFault> for Refusal {
    ghost from_gives = { λ f r. r ≡ image_refusal f };

    /// The number and the byte place, which counts from the image's first byte.
    // A match, since cases that hold something can have no numbers of their own.
    fn from(fault: ImageFault) -> Refusal {
        let (number, place) = match fault {
            ImageFault::Head(fault) => return fault.refusal(1, 2, 3),
            ImageFault::Count => (4, 5),
            ImageFault::Handler => (5, 7),
            ImageFault::Records(EntriesFault::Short { handed }) => (6, handed),
            ImageFault::Records(EntriesFault::Entry { index, fault }) => (
                fault.number(),
                9 + 8 * usize::from(index) + usize::from(fault.offset()),
            ),
        };
        Refusal { number, place }
    }
}
