ghost use Rattle.std.specs.Prelude.{◌≡◌};
ghost use Rattle.record.specs.Faults.{field_offset, record_number, record_offset};

use crate::faults::{Field, RecordFault};

// A cast: a field's case has the number of the byte at which it begins.
impl Field {
    /// Where the field begins in its record.
    pub fn offset(self) -> u8
        ensures { result ≡ field_offset self }
    {
        self as u8
    }
}

// Matches, since cases that hold something can have no numbers of their own.
impl RecordFault {
    /// The number of the question that decided.
    pub fn number(self) -> u8
        ensures { result ≡ record_number self }
    {
        match self {
            RecordFault::UnknownOperation => 7,
            RecordFault::OutOfRange(_) => 8,
            RecordFault::NotZero(_) => 9,
        }
    }

    /// Where the offending field begins in the record.
    pub fn offset(self) -> u8
        ensures { result ≡ record_offset self }
    {
        match self {
            RecordFault::UnknownOperation => 0,
            RecordFault::OutOfRange(field) | RecordFault::NotZero(field) => field.offset(),
        }
    }
}
