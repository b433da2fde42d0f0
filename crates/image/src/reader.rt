ghost use Rattle.std.specs.Prelude.{◌≡◌, Ok, Err};
ghost use Rattle.std.proofs.Common.{arith};
ghost use Rattle.image.specs.Reading.{head_of, decoder_fault, image_of};
ghost use Rattle.image.specs.Meaning.{told};

use crate::faults::ImageFault;
use crate::images::{Head, Image};
use fields::{Entries, check_head, read_entries};
use record::{Record, RecordFault};

/// Records in a row: each must be an instruction.
struct Records;

impl Entries<8> for Records {
    type Fault = RecordFault;

    ghost fault = { λ _ index bytes. decoder_fault bytes };

    fn judge(&self, _index: u16, entry: &[u8; 8]) -> Result<(), RecordFault> {
        Record::from(*entry).instruction().map(|_| ())
    }

    ghost some = { Prim.omega arith };
}

/// The numbers of the first nine bytes, where they begin an image.
fn read_head(bytes: &[u8]) -> Result<Head, ImageFault>
    ensures { result ≡ head_of bytes.now }
{
    check_head(bytes, b"CFP", 4)?;
    let count = u16::from_be_bytes([bytes[5], bytes[6]]);
    if !(1..=4096).contains(&count) {
        return Err(ImageFault::Count);
    }
    let handler = u16::from_be_bytes([bytes[7], bytes[8]]);
    if handler >= count {
        return Err(ImageFault::Handler);
    }
    Ok(Head {
        version: 1,
        count,
        handler,
    })
}

/// The image that the bytes begin with, and the bytes that follow it.
pub fn read_image(bytes: &[u8]) -> Result<(Image<'_>, &[u8]), ImageFault>
    ensures { elim result [
      | Ok p ↦ image_of bytes.now ≡ Ok (told p.0 p.1.now)
      | Err fault ↦ image_of bytes.now ≡ Err fault
    ] }
{
    let Head {
        version,
        count,
        handler,
    } = read_head(bytes)?;
    let (records, rest) = read_entries(&Records, bytes, 9, count)?;
    let image = Image {
        version,
        handler,
        records,
    };
    Ok((image, rest))
}
