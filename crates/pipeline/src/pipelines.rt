ghost use Rattle.image.specs.Meaning.{program};
ghost use Rattle.layout.specs.Meaning.{sets_in};
ghost use Rattle.fit.specs.Fitting.{All, placed};
ghost use Rattle.draining.specs.Sound.{Sound};

use image::Image;
use layout::Layout;
use pipes::Pipes;

/// A pipeline: the image and the layout that it was built on, and its pipes. Every instruction of
/// the image has a stage of the layout, and the pipes are sound: whatever moves led to them, they
/// can be drained.
#[derive(Clone, Copy)]
pub struct Pipeline<'a> {
    pub(crate) image: Image<'a>,
    pub(crate) layout: Layout<'a>,
    pub(crate) pipes: Pipes,
    ghost fits: { All (placed (sets_in layout)) (program image) },
    ghost sound: { Sound (sets_in layout) pipes },
}
