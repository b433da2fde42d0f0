/// How an instruction uses a field of its record.
#[derive(Clone, Copy)]
pub enum FieldUse {
    Unused,
    Word,
    Hint,
    RegisterName,
    RegisterOrLiteral,
}

/// How an instruction uses the fields of its record.
#[derive(Clone, Copy)]
pub struct Shape {
    pub destination: FieldUse,
    pub first: FieldUse,
    pub second: FieldUse,
    pub literal: FieldUse,
}
