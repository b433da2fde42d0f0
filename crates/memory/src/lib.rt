//! Words behind an interface: what can be read, what can also be written, two such memories, and
//! windows.
#![tactic(auto)]

pub use access::{AccessFault, WindowFault};
pub use lent::LentWords;
pub use loan::Loan;
pub use own::OwnWords;
pub use traits::{Memory, Readable};
pub use window::Window;

mod access;
mod faults;
mod lent;
mod loan;
mod own;
mod traits;
mod window;
