ghost use Rattle.std.specs.Prelude.{◌≡◌, []};
ghost use Rattle.bounded_log.specs.Entries.{add_of, grown};
ghost use Rattle.bounded_log.specs.Room.{loan_in, places_in, count_in, root_in, entries_in, added_if, Logs};

use crate::faults::LogFault;
use crate::places::Log;

impl<'a, T: Copy> Log<'a, T> {
    /// An empty log over these places.
    pub fn new(places: &'a mut [T]) -> Log<'a, T>
        ensures count { count_in result ≡ 0 }
        ensures places { places_in result ≡ places.old }
        ensures root { root_in result ≡ places.entry.ghost_name }
    {
        Log { places, count: 0 }
    }

    /// Adds an entry at the first free place; refused where there is none.
    pub fn add(&mut self, added: T) -> Result<(), LogFault>
        ensures value { result ≡ add_of (places_in self.old) (count_in self.old) }
        ensures logs { Logs self.old self.new (added_if self.old added) }
        ensures entries { entries_in self.new ≡
            grown (places_in self.old) (count_in self.old) added }
    {
        // A slice's `get_mut` says nothing of the other places, so this goes by the index.
        if self.count < self.places.len() {
            self.places[self.count] = added;
            self.count += 1;
            Ok(())
        } else {
            Err(LogFault::Full)
        }
    }

    /// Forgets the entries: their places are free again.
    pub fn clear(&mut self)
        ensures count { count_in self.new ≡ 0 }
        ensures entries { entries_in self.new ≡ [] }
        ensures places { loan_in self.new ≡ loan_in self.old }
    {
        self.count = 0;
    }
}
