ghost use Rattle.std.specs.Prelude.{◌≡◌};
ghost use Rattle.layout.specs.declared.faults.LayoutFault.TheVariants.{Head, Sets};

use fields::{EntriesFault, HeadFault};

/// Why a number is no set of operations for its stage; its number is that of the question that
/// decided.
#[derive(Clone, Copy, Debug, PartialEq)]
pub enum SetFault {
    Unheard = 15,
    MemoryBelowTop = 16,
}

/// Why bytes are no layout: the reader's refusal.
#[derive(Clone, Copy, Debug, PartialEq)]
pub enum LayoutFault {
    Head(HeadFault),
    Stages,
    Sets(EntriesFault<SetFault>),
}

impl From<HeadFault> for LayoutFault {
    ghost from_gives = { λ fault refused. refused ≡ Head fault };

    fn from(fault: HeadFault) -> LayoutFault {
        LayoutFault::Head(fault)
    }
}

impl From<EntriesFault<SetFault>> for LayoutFault {
    ghost from_gives = { λ fault refused. refused ≡ Sets fault };

    fn from(fault: EntriesFault<SetFault>) -> LayoutFault {
        LayoutFault::Sets(fault)
    }
}
