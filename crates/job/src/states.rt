use image::Image;
use layout::Layout;
use moves::MoveList;

// Each state is consumed by the call that reads the next part, so the parts are read in order. How
// many bytes the job has stands beside what is left: where the next part begins is their difference.

/// The bytes of a job, of which nothing is read yet.
pub struct JobBytes<'a> {
    pub(crate) bytes: &'a [u8],
}

/// A job whose image is read: next is its layout.
pub struct JobWithImage<'a> {
    pub(crate) length: usize,
    pub(crate) image: Image<'a>,
    pub(crate) rest: &'a [u8],
}

/// A job whose image and layout are read: next are its moves.
pub struct JobWithLayout<'a> {
    pub(crate) length: usize,
    pub(crate) image: Image<'a>,
    pub(crate) layout: Layout<'a>,
    pub(crate) rest: &'a [u8],
}

/// A core: an image and a layout in a row, with no moves behind them.
#[derive(Clone, Copy)]
pub struct Core<'a> {
    pub image: Image<'a>,
    pub layout: Layout<'a>,
}

/// A job that is read whole.
#[derive(Clone, Copy)]
pub struct Job<'a> {
    pub image: Image<'a>,
    pub layout: Layout<'a>,
    pub moves: MoveList<'a>,
}
