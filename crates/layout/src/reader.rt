ghost use Rattle.std.specs.Prelude.{◌≡◌, Ok, Err};
ghost use Rattle.layout.specs.Reading.{stages_of, layout_of};
ghost use Rattle.layout.specs.Meaning.{told};

use crate::faults::LayoutFault;
use crate::layouts::Layout;
use crate::stage_sets::StageSets;
use fields::{check_head, read_entries};

/// The number of stages in the first six bytes, where they begin a layout.
fn read_stages(bytes: &[u8]) -> Result<u8, LayoutFault>
    ensures { result ≡ stages_of bytes.now }
{
    check_head(bytes, b"CFL", 1)?;
    let stages = bytes[5];
    if !(2..=16).contains(&stages) {
        return Err(LayoutFault::Stages);
    }
    Ok(stages)
}

/// The layout that the bytes begin with, and the bytes that follow it.
pub fn read_layout(bytes: &[u8]) -> Result<(Layout<'_>, &[u8]), LayoutFault>
    ensures { elim result [
      | Ok p ↦ layout_of bytes.now ≡ Ok (told p.0 p.1.now)
      | Err fault ↦ layout_of bytes.now ≡ Err fault
    ] }
{
    let stages = read_stages(bytes)?;
    let (sets, rest) = read_entries(&StageSets { stages }, bytes, 6, u16::from(stages))?;
    Ok((Layout { sets }, rest))
}
