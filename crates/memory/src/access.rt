ghost use Rattle.std.specs.Prelude.{◌≡◌};
ghost use Rattle.memory.specs.Words.{read_of};

/// Why an access is refused: the address is not below the size.
#[derive(Clone, Copy, Debug, PartialEq)]
pub enum AccessFault {
    Outside = 44,
}

/// Why a window is refused: it has no addresses, or not all of them are below.
#[derive(Clone, Copy, Debug, PartialEq)]
pub enum WindowFault {
    Misfit = 42,
}

/// The word at an address of these words.
pub(crate) fn word_at(words: &[u32], address: u32) -> Result<u32, AccessFault>
    ensures { result ≡ read_of words.now address }
{
    words
        .get(address as usize)
        .copied()
        .ok_or(AccessFault::Outside)
}
