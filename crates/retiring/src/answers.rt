ghost use Rattle.std.specs.Prelude.{Some};
ghost use Rattle.retiring.specs.Figures.{core_text};

use std::fmt;

/// How the drains of a core went: how many records and stages it has, how many instructions retired
/// and whether it halted, the most moves that one drain made, and the bound on them.
#[derive(Clone, Copy, Debug, PartialEq)]
pub struct CoreDrained {
    pub records: u16,
    pub stages: usize,
    pub drained: usize,
    pub halted: bool,
    pub most: usize,
    pub bound: usize,
}

impl fmt::Display for CoreDrained {
    ghost output = { λ core. Some (core_text core) };

    fn fmt<W: fmt::Write>(&self, f: &mut fmt::Formatter<W>) -> fmt::Result {
        let CoreDrained {
            drained,
            halted,
            most,
            bound,
            ..
        } = *self;
        let halted = u8::from(halted);
        write!(f, "{drained} {halted} {most} {bound}")
    }
}
