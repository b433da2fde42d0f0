/// A field of a record, after its operation, with the byte of the record at which it begins.
#[derive(Clone, Copy, Debug, PartialEq)]
pub enum Field {
    Destination = 1,
    First = 2,
    Second = 3,
    Literal = 4,
}

/// Why a record is no instruction: the decoder's refusal.
#[derive(Clone, Copy, Debug, PartialEq)]
pub enum RecordFault {
    UnknownOperation,
    OutOfRange(Field),
    NotZero(Field),
}
