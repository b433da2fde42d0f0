ghost use Rattle.std.specs.Prelude.{◌≡◌, Ok, Err};
ghost use Rattle.moves.specs.Reading.{count_of, moves_of};
ghost use Rattle.moves.specs.Meaning.{told};

use crate::faults::MoveListFault;
use crate::judging::MoveEntries;
use crate::lists::MoveList;
use fields::{check_head, read_entries};

/// The number of moves in the first seven bytes, where they begin a move list.
fn read_count(bytes: &[u8]) -> Result<u16, MoveListFault>
    ensures { result ≡ count_of bytes.now }
{
    check_head(bytes, b"CFM", 2)?;
    let count = u16::from_be_bytes([bytes[5], bytes[6]]);
    if count > 16000 {
        return Err(MoveListFault::Count);
    }
    Ok(count)
}

/// The move list that the bytes begin with, and the bytes that follow it.
pub fn read_moves(bytes: &[u8]) -> Result<(MoveList<'_>, &[u8]), MoveListFault>
    ensures { elim result [
      | Ok p ↦ moves_of bytes.now ≡ Ok (told p.0 p.1.now)
      | Err fault ↦ moves_of bytes.now ≡ Err fault
    ] }
{
    let count = read_count(bytes)?;
    let (entries, rest) = read_entries(&MoveEntries, bytes, 7, count)?;
    Ok((MoveList { entries }, rest))
}
