ghost use Rattle.std.specs.Prelude.{◌≤◌, length};

/// A bounded log. Its entries are the first `count` of the places that it was lent.
// The caller lends the places, so the count stands beside them.
#[derive(Drop)]
pub struct Log<'a, T> {
    pub(crate) places: &'a mut [T],
    pub(crate) count: usize,
    ghost within: { count ≤ length places.now },
}
