/// Why a unit gives no word: the fault's number, from 1 to 15.
// `Unit::ask`, the one call that answers faults, promises the range: as a part of the type, each
// definition that builds a fault would have to carry a proof of it.
#[derive(Clone, Copy, Debug, PartialEq)]
pub struct Fault {
    pub number: u8,
}

/// What a unit answers: a word, or a fault.
pub type Outcome = Result<u32, Fault>;
