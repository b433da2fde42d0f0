ghost use Rattle.std.specs.Prelude.{◌≡◌, ◌<◌, length, IfSome};
ghost use Rattle.layout.specs.Meaning.{sets_in};
ghost use Rattle.draining.specs.Policy.{lowest, highest};

use layout::Layout;
use pipes::Pipes;

/// The lowest stage with a result, among those that the layout has.
pub(crate) fn lowest(pipes: &Pipes, layout: &Layout<'_>) -> Option<usize>
    ensures value { result ≡ lowest pipes.now.stages (length (sets_in layout.now)) }
    ensures within { IfSome result (λ k. (k < length (sets_in layout.now)) × (k < 16)) }
{
    pipes.stages[..layout.stages()]
        .iter()
        .position(|stage| !stage.result.is_free())
}

/// The highest stage with a packet, among those that the layout has.
pub(crate) fn highest(pipes: &Pipes, layout: &Layout<'_>) -> Option<usize>
    ensures value { result ≡ highest pipes.now.stages (length (sets_in layout.now)) }
    ensures within { IfSome result (λ k. (k < length (sets_in layout.now)) × (k < 16)) }
{
    pipes.stages[..layout.stages()]
        .iter()
        .rposition(|stage| stage.packet.is_some())
}
