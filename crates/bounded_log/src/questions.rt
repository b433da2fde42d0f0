ghost use Rattle.std.specs.Prelude.{◌≡◌, length};
ghost use Rattle.bounded_log.specs.Entries.{entry_of};
ghost use Rattle.bounded_log.specs.Room.{count_in, entries_in, room};

use crate::faults::LogFault;
use crate::places::Log;

impl<'a, T: Copy> Log<'a, T> {
    /// The entries, as a slice.
    pub(crate) fn records(&self) -> &[T]
        ensures { result.now ≡ entries_in self.now }
    {
        &self.places[..self.count]
    }

    /// The entry of this number, from 0; refused where there is none.
    pub fn entry(&self, index: usize) -> Result<T, LogFault>
        ensures { result ≡ entry_of (entries_in self.now) index }
    {
        self.records().get(index).copied().ok_or(LogFault::Missing)
    }

    /// How many entries there are.
    pub fn count(&self) -> usize
        ensures value { result ≡ count_in self.now }
        ensures entries { result ≡ length (entries_in self.now) }
    {
        self.count
    }

    /// How many places are free.
    pub fn free(&self) -> usize
        ensures { result ≡ room self.now }
    {
        self.places.len() - self.count
    }
}
