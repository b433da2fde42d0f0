/// The eight bytes of a record, field by field.
#[derive(Clone, Copy)]
pub struct Record {
    pub operation: u8,
    pub destination: u8,
    pub first: u8,
    pub second: u8,
    pub literal: u32,
}
