ghost use Rattle.std.specs.Prelude.{◌≡◌, ℕ, ◌+◌, ◌*◌, ◌<◌, ◌≤◌, List, length, drop, Ok, Err, Option, MatchOption};
ghost use Rattle.std.specs.Simd.{first_chunks};
ghost use Rattle.fields.specs.Scanning.{first_in, numbered, verdict};
ghost use Rattle.fields.specs.Files.{split_of};

/// Entries of N bytes in a row: each is judged by its number and its bytes.
pub trait Entries<const N: usize> {
    type Fault;

    ghost fault: { Self → ℕ → List ℕ → Option Self.Fault };

    /// Are these bytes an entry, or why not?
    fn judge(&self, index: u16, entry: &[u8; N]) -> Result<(), Self::Fault>
        ensures { result ≡ verdict (fault self.now index entry.now) };

    // A law: each implementation proves that an entry has a byte at least.
    ghost some: { 0 < N };
}

/// Why bytes behind a head are not the entries that it announces: they are fewer, or one is none.
#[derive(Clone, Copy, Debug, PartialEq)]
pub enum EntriesFault<F> {
    Short { handed: usize },
    Entry { index: u16, fault: F },
}

/// Is each of the rows an entry? If not, the number and the fault of the first that is none.
fn first_fault<const N: usize, E: Entries<N>>(
    entries: &E,
    rows: &[[u8; N]],
) -> Result<(), EntriesFault<E::Fault>>
    requires { length rows.now < 65536 }
    ensures { result ≡ verdict (first_in (numbered (E.fault entries.now)) 0 rows.now) }
{
    for (index, row) in rows.iter().enumerate() {
        let index = index as u16;
        if let Err(fault) = entries.judge(index, row) {
            return Err(EntriesFault::Entry { index, fault });
        }
    }
    Ok(())
}

/// So many rows of N bytes behind a head, and the bytes that follow them; none where the bytes are
/// fewer.
fn rows_behind<const N: usize>(bytes: &[u8], head: usize, count: u16) -> Option<(&[[u8; N]], &[u8])>
    requires { 0 < N }
    ensures { MatchOption result (length bytes.now < head + N * count) (λ p.
        (head + N * count ≤ length bytes.now)
        × (p.0.now ≡ first_chunks N count (drop head bytes.now))
        × (p.1.now ≡ drop (head + N * count) bytes.now)
        × (length p.0.now ≡ count)) }
{
    let behind = bytes.get(head..)?;
    let width = N.checked_mul(usize::from(count))?;
    let (front, rest) = behind.split_at_checked(width)?;
    let (rows, _) = front.as_chunks::<N>();
    Some((rows, rest))
}

/// So many entries behind a head, and the bytes that follow them.
pub fn read_entries<'a, const N: usize, E: Entries<N>>(
    entries: &E,
    bytes: &'a [u8],
    head: usize,
    count: u16,
) -> Result<(&'a [[u8; N]], &'a [u8]), EntriesFault<E::Fault>>
    ensures { elim result [
      | Ok p ↦ split_of (E.fault entries.now) N head count bytes.now ≡ Ok (p.0.now, p.1.now)
      | Err fault ↦ split_of (E.fault entries.now) N head count bytes.now ≡ Err fault
    ] }
{
    let Some((rows, rest)) = rows_behind::<N>(bytes, head, count) else {
        return Err(EntriesFault::Short {
            handed: bytes.len(),
        });
    };
    first_fault(entries, rows)?;
    Ok((rows, rest))
}
