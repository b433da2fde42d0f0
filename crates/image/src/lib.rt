//! Images: the program of a core, read from bytes.
#![tactic(auto)]

pub use faults::ImageFault;
pub use images::{Head, Image};
pub use reader::read_image;

mod faults;
mod images;
mod instructions;
mod program;
mod reader;
mod telling;
