ghost use Rattle.layout.specs.Reading.{WasRead};

/// A layout that was read: the set of each stage, stage 0 first.
#[derive(Clone, Copy)]
pub struct Layout<'a> {
    pub(crate) sets: &'a [[u8; 4]],
    ghost read: { WasRead sets.now },
}
