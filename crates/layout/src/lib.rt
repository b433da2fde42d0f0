//! Layouts: which stages a core has, and what each can execute, read from bytes.
#![tactic(auto)]

pub use faults::{LayoutFault, SetFault};
pub use layouts::Layout;
pub use reader::read_layout;

mod faults;
mod layouts;
mod reader;
mod stage_sets;
mod stages;
mod telling;
