ghost use Rattle.image.specs.Meaning.{program};
ghost use Rattle.layout.specs.Meaning.{sets_in};
ghost use Rattle.fit.specs.Fitting.{All, placed};

use image::Image;
use layout::Layout;

/// A fitted pair: every instruction of the image has a stage of the layout.
#[derive(Drop)]
pub struct Fitted<'a> {
    pub image: Image<'a>,
    pub layout: Layout<'a>,
    ghost fits: { All (placed (sets_in layout)) (program image) },
}
