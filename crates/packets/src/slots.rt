use crate::results::PipeResult;

/// The result part of a stage.
// A rule of the project: the result slot is a type of its own with its own operations. By them a
// result enters, leaves and meets.
#[derive(Clone, Copy, Debug, PartialEq)]
pub struct ResultSlot {
    pub held: Option<PipeResult>,
}
