use instruction::Register;

/// A source that is a register: its name, its word, and whether the word has come.
// A rule of the project: a binding is a register's name, a word and a validity bit, and the rules
// of the pipes speak of that bit. So it is no `Option` of the word.
#[derive(Clone, Copy, Debug, PartialEq)]
pub struct Binding {
    pub register: Register,
    pub word: u32,
    pub valid: bool,
}

/// Where a packet has a word of its instruction.
// Three cases: one that is absent is asked for its word as the others are, and answers 0.
#[derive(Clone, Copy, Debug, PartialEq)]
pub enum Source {
    Absent,
    Literal(u32),
    Bound(Binding),
}
