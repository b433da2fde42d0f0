use instruction::Register;

/// What descends the second pipe: a register's value, or the news that the path fetched is not the
/// one to go on with.
#[derive(Clone, Copy, Debug, PartialEq)]
pub enum PipeResult {
    Value { register: Register, word: u32 },
    WrongBranch { target: u32 },
    Trap { handler: u32 },
}
