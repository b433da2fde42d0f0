ghost use Rattle.std.specs.Prelude.{◌≡◌, MatchResult};
ghost use Rattle.image.specs.Meaning.{program};
ghost use Rattle.layout.specs.Meaning.{sets_in};
ghost use Rattle.fit.specs.Fitting.{heard, All, Unfit};

use crate::faults::FitFault;
use crate::pairs::Fitted;
use crate::questions::{heard, placed};
use image::Image;
use layout::Layout;
use unit::Unit;

/// Fits an image to a layout, for a unit: first every record is asked for a stage, then for the
/// unit's operation. A refusal names one record for which the answer is no.
pub fn fit<'a, U: Unit>(image: Image<'a>, layout: Layout<'a>) -> Result<Fitted<'a>, FitFault>
    ensures { MatchResult result
        (λ p. (p.image ≡ image.entry) × (p.layout ≡ layout.entry) ×
        All (heard U.Unit.KNOWN) (program image.entry))
        (Unfit (sets_in layout.entry) U.Unit.KNOWN (program image.entry)) }
{
    if let Some(index) = image
        .instructions()
        .position(|instruction| !placed(&layout, instruction))
    {
        return Err(FitFault::NoStage {
            index: index as u16,
        });
    }
    if let Some(index) = image
        .instructions()
        .position(|instruction| !heard(U::KNOWN, instruction))
    {
        return Err(FitFault::UnknownOperation {
            index: index as u16,
        });
    }
    Ok(Fitted { image, layout })
}
