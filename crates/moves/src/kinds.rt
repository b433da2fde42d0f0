/// What a move does to the pipes; its number is that in a list.
#[derive(Clone, Copy, Debug, PartialEq)]
pub enum MoveKind {
    Fetch = 1,
    Raise = 2,
    Lower = 3,
    Execute = 4,
    Insert = 5,
    Read = 6,
    Retire = 7,
    Drop = 8,
}

/// A move: its kind, and the stage or, for a read, the register that it names.
// A place is a stage or a register as the kind says, and any number of 8 bits, since a move is told
// and logged as two numbers.
#[derive(Clone, Copy, Debug, PartialEq)]
pub struct Move {
    pub kind: MoveKind,
    pub place: u8,
}
