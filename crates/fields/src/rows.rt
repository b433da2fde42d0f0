#![tactic(auto, using(crate::proofs::Lefts::none_left, crate::proofs::Lefts::one_left, std::proofs::lemmas::Option::slice_get_within))]

ghost use Rattle.std.specs.Prelude.{◌≡◌, ◌<◌, List, length, Option};
ghost use Rattle.std.specs.Iterator.{YieldsFirst, item_count};
ghost use Rattle.std.specs.List.{slice_get};
ghost use Rattle.fields.specs.Rows.{left_of};

/// Elements in a row, each found by its number; 16 bits count them.
pub trait Row: Copy {
    type Element;

    ghost elements: { Self → List Self.Element };

    /// The element of this number, from 0; none behind the last.
    fn element(&self, index: u16) -> Option<Self::Element>
        ensures { result ≡ slice_get (elements self.now) index };

    // A law: each implementation proves that 16 bits count its elements.
    ghost few: { (x : Self) → length (elements x) < 65536 };
}

/// The elements of a row from a number on, in their order.
#[derive(Clone, Copy)]
pub struct Elements<R> {
    row: R,
    index: u16,
}

impl<R: Row> Elements<R> {
    /// All elements, the first first.
    pub fn of(row: R) -> Elements<R>
        ensures { left_of R.elements result ≡ R.elements row }
    {
        Elements { row, index: 0 }
    }
}

impl<R: Row> Iterator for Elements<R> {
    type Item = R::Element;

    ghost next_gives = { YieldsFirst (left_of R.elements) };

    ghost remaining = { item_count (left_of R.elements) };

    fn next(&mut self) -> Option<R::Element> {
        let next = self.row.element(self.index)?;
        self.index += 1;
        Some(next)
    }
}
