ghost use Rattle.std.specs.Prelude.{Some, string_bytes};
ghost use Rattle.bounded_log.specs.Lines.{Writes, numbered};
ghost use Rattle.bounded_log.specs.Room.{entries_in};

use crate::faults::WriteFault;
use crate::lines::{Line, PrintedLine};
use crate::places::Log;
use std::alloc::Global;
use std::fmt;

impl<'a, T: Copy + Line> Log<'a, T> {
    /// Appends the line of an entry to a text.
    pub fn write_entry(
        &self,
        index: usize,
        heap: Global,
        out: &mut String,
    ) -> Result<(), WriteFault>
        ensures { Writes T.Line.numbers (entries_in self.now) index result
            (string_bytes out.old) (string_bytes out.new) }
    {
        let record = self.entry(index)?;
        let line = record.line(heap)?;
        out.push_str(&line)?;
        Ok(())
    }
}

/// Every entry on a line of its own behind its number, from 1.
impl<T: Copy + PrintedLine> fmt::Display for Log<'_, T> {
    ghost output = { λ log. Some (numbered T.Line.numbers 1 (entries_in log)) };

    fn fmt<W: fmt::Write>(&self, f: &mut fmt::Formatter<W>) -> fmt::Result {
        for (index, record) in self.records().iter().enumerate() {
            let number = index + 1;
            writeln!(f, "{number} {record}")?;
        }
        Ok(())
    }
}
