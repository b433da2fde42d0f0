ghost use Rattle.std.specs.Prelude.{◌≡◌};
ghost use Rattle.image.specs.declared.faults.ImageFault.TheVariants.{Head, Records};

use fields::{EntriesFault, HeadFault};
use record::RecordFault;

/// Why bytes are no image: the reader's refusal, which holds the decoder's whole.
#[derive(Clone, Copy, Debug, PartialEq)]
pub enum ImageFault {
    Head(HeadFault),
    Count,
    Handler,
    Records(EntriesFault<RecordFault>),
}

impl From<HeadFault> for ImageFault {
    ghost from_gives = { λ fault refused. refused ≡ Head fault };

    fn from(fault: HeadFault) -> ImageFault {
        ImageFault::Head(fault)
    }
}

impl From<EntriesFault<RecordFault>> for ImageFault {
    ghost from_gives = { λ fault refused. refused ≡ Records fault };

    fn from(fault: EntriesFault<RecordFault>) -> ImageFault {
        ImageFault::Records(fault)
    }
}
