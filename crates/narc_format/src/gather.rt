//! Lists of bounded length.
ghost use Rattle.std.specs.Prelude.{◌≡◌, ℕ, ◌<◌, ◌≤◌, ◌++◌, List, [], ◌∷◌, length, slice_get, Some};

/// A list of at most `CAP` items, seen as the list of its items.
pub trait Gather<T: Drop>: Drop {
    ghost CAP: { ℕ };

    ghost items: { Self → List T };

    /// The most items that it holds.
    const CAP: usize;

    /// No items.
    fn empty() -> Self
        ensures { items result ≡ [] };

    /// How many items it has.
    fn len(&self) -> usize
        ensures value { result ≡ length (items self.now) }
        ensures bound { result ≤ CAP };

    /// The item at a place, from 0.
    fn get(&self, i: usize) -> &T
        requires { i < length (items self.now) }
        ensures { slice_get (items self.now) i ≡ Some result.now };

    /// Appends an item.
    fn push(&mut self, item: T)
        requires { length (items self.old) < CAP }
        ensures { items self.new ≡ items self.old ++ item ∷ [] };
}
