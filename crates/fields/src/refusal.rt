ghost use Rattle.std.specs.Prelude.{Some};
ghost use Rattle.fields.specs.Refusals.{refusal_text};

use std::fmt;

/// A reader's no: the number of the question that decided, and the byte place that it names.
#[derive(Clone, Copy, Debug, PartialEq)]
pub struct Refusal {
    pub number: u8,
    pub place: usize,
}

impl fmt::Display for Refusal {
    ghost output = { λ refusal. Some (refusal_text refusal) };

    fn fmt<W: fmt::Write>(&self, f: &mut fmt::Formatter<W>) -> fmt::Result {
        let Refusal { number, place } = *self;
        write!(f, "NO {number} {place}")
    }
}
