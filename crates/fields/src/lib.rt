//! What the readers of files share: how a refusal is told, how a file begins, how entries in a row
//! are judged and given, and how sets lie in numbers.
#![tactic(auto)]

pub use heads::{HeadFault, check_head};
pub use refusal::Refusal;
pub use rows::{Elements, Row};
pub use scanning::{Entries, EntriesFault, read_entries};
pub use sets::holds;

mod heads;
mod refusal;
mod rows;
mod scanning;
mod sets;
