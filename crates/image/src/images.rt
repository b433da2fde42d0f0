ghost use Rattle.image.specs.Reading.{WasRead};

/// The numbers that an image begins with.
#[derive(Clone, Copy)]
pub struct Head {
    pub version: u16,
    pub count: u16,
    pub handler: u16,
}

/// An image that was read: two of its numbers, and its records, each of which is an instruction.
#[derive(Clone, Copy)]
pub struct Image<'a> {
    pub(crate) version: u16,
    pub(crate) handler: u16,
    pub(crate) records: &'a [[u8; 8]],
    ghost read: { WasRead handler records.now },
}
