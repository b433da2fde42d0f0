ghost use Rattle.std.specs.Prelude.{◌≡◌};
ghost use Rattle.layout.specs.Meaning.{sets_in};
ghost use Rattle.pipes.specs.Questions.{some_able};

use layout::Layout;
use packets::Packet;

/// Is some stage from this one on able to execute what a packet carries?
pub fn some_able(layout: &Layout<'_>, stage: usize, packet: &Packet) -> bool
    ensures { result ≡ some_able (sets_in layout.now) stage packet.now.fetched.instruction }
{
    matches!(
        packet.fetched.instruction,
        Some(instruction) if layout.able_from(stage, instruction.operation())
    )
}
