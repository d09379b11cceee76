// What the host lends: a buffer of items that is only read.
ghost use Rattle.std.specs.Prelude.{◌≡◌, List, take};
ghost use Rattle.std.specs.List.{slice_get};

use super::trace::MOST_RECORDS;

// A buffer, by the items that it holds in order.
pub trait Buffer {
    type Item: Copy;

    ghost items: { Self → List Self.Item };

    // The item at an index, if there is one.
    fn item(&self, index: usize) -> Option<Self::Item>
        ensures { result ≡ slice_get (items self.now) index };

    // The item at an index among the first 50,000, if there is one.
    fn early(&self, index: usize) -> Option<Self::Item>
        ensures { result ≡ slice_get (take 50000 (items self.now)) index }
    {
        if index < MOST_RECORDS {
            self.item(index)
        } else {
            None
        }
    }
}

impl<T: Copy> Buffer for &[T] {
    type Item = T;

    ghost items = { λ s. s.now };

    fn item(&self, index: usize) -> Option<T> {
        self.get(index).copied()
    }
}
