ghost use Rattle.std.specs.Prelude.{◌≡◌, ◌+◌, ◌≤◌, length, OnOk};
ghost use Rattle.fields.specs.Files.{headed};
ghost use Rattle.fields.specs.Refusals.{head_refusal};

use crate::refusal::Refusal;

/// Why bytes do not begin as a file of their kind: its head is not whole, or has another mark or
/// version.
#[derive(Clone, Copy, Debug, PartialEq)]
pub enum HeadFault {
    Short { handed: usize },
    Mark,
    Version,
}

impl HeadFault {
    /// The refusal, where the three questions have these numbers.
    pub fn refusal(self, short: u8, mark: u8, version: u8) -> Refusal
        ensures { result ≡ head_refusal short mark version self }
    {
        let (number, place) = match self {
            HeadFault::Short { handed } => (short, handed),
            HeadFault::Mark => (mark, 0),
            HeadFault::Version => (version, 3),
        };
        Refusal { number, place }
    }
}

/// Do the bytes begin with this mark and version 1, and are there so many more for the head's
/// numbers?
pub fn check_head(bytes: &[u8], mark: &[u8; 3], numbers: u8) -> Result<(), HeadFault>
    ensures value { result ≡ headed mark.now numbers bytes.now }
    ensures whole { OnOk result (5 + numbers ≤ length bytes.now) }
{
    let handed = bytes.len();
    if handed < 5 + usize::from(numbers) {
        Err(HeadFault::Short { handed })
    } else if !bytes.starts_with(mark) {
        Err(HeadFault::Mark)
    } else if u16::from_be_bytes([bytes[3], bytes[4]]) != 1 {
        Err(HeadFault::Version)
    } else {
        Ok(())
    }
}
