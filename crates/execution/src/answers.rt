ghost use Rattle.std.specs.Prelude.{Some};
ghost use Rattle.execution.specs.Figures.{execution_text};

use std::fmt;

/// How an execution went: how many records the image has, how many steps were made, and whether it
/// halted.
#[derive(Clone, Copy, Debug, PartialEq)]
pub struct Execution {
    pub records: u16,
    pub steps: usize,
    pub halted: bool,
}

impl fmt::Display for Execution {
    ghost output = { λ execution. Some (execution_text execution) };

    fn fmt<W: fmt::Write>(&self, f: &mut fmt::Formatter<W>) -> fmt::Result {
        let Execution { steps, halted, .. } = *self;
        let halted = u8::from(halted);
        write!(f, "{steps} {halted}")
    }
}
