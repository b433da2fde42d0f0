ghost use Rattle.std.specs.Prelude.{◌≡◌, Some};
ghost use Rattle.bounded_log.specs.declared.faults.WriteFault.TheVariants.{Log, Memory};
ghost use Rattle.bounded_log.specs.Entries.{log_number};
ghost use Rattle.bounded_log.specs.Lines.{fault_text};

use std::alloc::AllocError;
use std::error::Error;
use std::fmt;

/// Why the log refuses: every place is taken, or there is no such entry.
#[derive(Clone, Copy, Debug, PartialEq)]
pub enum LogFault {
    Full = 40,
    Missing = 41,
}

// One cast for each enum: a trait would ask for the same line in an impl of each.
impl LogFault {
    /// The refusal's number.
    pub fn number(self) -> u8
        ensures { result ≡ log_number self }
    {
        self as u8
    }
}

/// Why an entry is not written out: there is none, or no memory for its line.
#[derive(Debug, Drop)]
pub enum WriteFault {
    Log(LogFault),
    Memory(AllocError),
}

impl From<LogFault> for WriteFault {
    ghost from_gives = { λ fault written. written ≡ Log fault };

    fn from(fault: LogFault) -> WriteFault {
        WriteFault::Log(fault)
    }
}

impl From<AllocError> for WriteFault {
    ghost from_gives = { λ fault written. written ≡ Memory fault };

    fn from(fault: AllocError) -> WriteFault {
        WriteFault::Memory(fault)
    }
}

impl fmt::Display for WriteFault {
    ghost output = { λ fault. Some (fault_text fault) };

    fn fmt<W: fmt::Write>(&self, f: &mut fmt::Formatter<W>) -> fmt::Result {
        match self {
            WriteFault::Log(LogFault::Full) => f.write_str("no free place"),
            WriteFault::Log(LogFault::Missing) => f.write_str("no such entry"),
            WriteFault::Memory(_) => f.write_str("memory allocation failed"),
        }
    }
}

impl Error for WriteFault {}
