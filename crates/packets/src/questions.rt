ghost use Rattle.std.specs.Prelude.{◌≡◌};
ghost use Rattle.packets.specs.Packets.{valid, word_in, ready, sources_in, owing, is_live, is_executed, may_execute, may_insert, may_retire, may_pass};

use crate::bindings::Source;
use crate::packets::{Packet, PacketState, Standing};
use crate::results::PipeResult;
use effect::Sources;

impl Source {
    /// Has its word come?
    fn valid(self) -> bool
        ensures { result ≡ valid self }
    {
        match self {
            Source::Absent | Source::Literal(_) => true,
            Source::Bound(binding) => binding.valid,
        }
    }

    fn word(self) -> u32
        ensures { result ≡ word_in self }
    {
        match self {
            Source::Absent => 0,
            Source::Literal(word) => word,
            Source::Bound(binding) => binding.word,
        }
    }
}

impl Packet {
    /// Have the words of all sources come?
    pub fn ready(&self) -> bool
        ensures { result ≡ ready self.now }
    {
        self.first.valid() && self.second.valid()
    }

    /// The words of its sources.
    pub(crate) fn sources(&self) -> Sources
        ensures { result ≡ sources_in self.now }
    {
        Sources {
            first: self.first.word(),
            second: self.second.word(),
        }
    }

    /// The result that it owes.
    pub fn owing(&self) -> Option<PipeResult>
        ensures { result ≡ owing self.now }
    {
        match self.state {
            PacketState::Waiting => None,
            PacketState::Executed { owed, .. } => owed,
        }
    }

    pub fn is_live(&self) -> bool
        ensures { result ≡ is_live self.now.standing }
    {
        matches!(self.standing, Standing::Live)
    }

    pub fn is_executed(&self) -> bool
        ensures { result ≡ is_executed self.now.state }
    {
        matches!(self.state, PacketState::Executed { .. })
    }

    /// May it be executed, as far as its own state goes?
    pub fn may_execute(&self) -> bool
        ensures { result ≡ may_execute self.now }
    {
        self.is_live() && !self.is_executed()
    }

    /// Has it a result to insert?
    pub fn may_insert(&self) -> bool
        ensures { result ≡ may_insert self.now }
    {
        self.is_live() && self.owing().is_some()
    }

    /// May it leave at the top?
    pub fn may_retire(&self) -> bool
        ensures { result ≡ may_retire self.now }
    {
        !self.is_live() || (self.is_executed() && self.owing().is_none())
    }

    /// May it climb past every stage, since it needs none?
    pub fn may_pass(&self) -> bool
        ensures { result ≡ may_pass self.now }
    {
        !self.is_live() || self.is_executed()
    }
}
