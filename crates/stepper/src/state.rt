ghost use Rattle.std.specs.Prelude.{◌≡◌, length};

use image::Image;

/// Why a step is refused: a halt was executed.
#[derive(Clone, Copy, Debug, PartialEq)]
pub enum StepFault {
    Halted = 30,
}

/// An image, and how far its execution has come.
#[derive(Clone, Copy)]
pub struct Stepper<'a> {
    pub(crate) image: Image<'a>,
    pub(crate) place: u32,
    pub(crate) registers: [u32; 16],
    pub(crate) halted: bool,

    // In a definition an array is a list of any length, so this says which.
    ghost full: { length registers ≡ 16 },
}
