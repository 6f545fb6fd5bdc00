//! A table: a list in fixed memory.
ghost use Rattle.std.specs.Prelude.{◌≡◌, ◌==◌, ◌<◌, ◌≤◌, List, [], ◌∷◌, ◌++◌, length, take};

use std::marker::Model;

/// At most `N` items. An item is written behind the others, and only then the count grows.
// An array and a count, since a book has fixed memory and no heap; and no `ArrayVec`, which fills its array with defaults
// and shows a clause a record, so that neither the code nor a contract would be plainer.
#[derive(Drop)]
pub struct Table<T, const N: usize> {
    items: [T; N],
    count: usize,
}

// Clauses see the items up to the count.
impl<T, const N: usize> Model for Table<T, N> {
    ghost Value = { List T };

    ghost view = { λ t. take t.count t.items };

    ghost invariant = { λ t. t.count ≤ N };
}

impl<T: Copy, const N: usize> Table<T, N> {
    /// A table without items. What lies behind the count, `unseen` at first, is never read.
    pub(crate) fn new(unseen: T) -> Self
        ensures value { result ≡ [] }
    {
        Table {
            items: [unseen; N],
            count: 0,
        }
    }

    /// How many items it has.
    pub(crate) fn len(&self) -> usize
        ensures value { result ≡ length self.now }
        ensures few { length self.now ≤ N }
    {
        self.count
    }

    /// Whether it has none.
    pub(crate) fn is_empty(&self) -> bool
        ensures value { result ≡ (length self.now == 0) }
    {
        self.count == 0
    }

    /// Whether there is no room for another.
    pub(crate) fn is_full(&self) -> bool
        ensures value { result ≡ (length self.now == N) }
        ensures few { length self.now ≤ N }
    {
        self.count == N
    }

    /// Its items.
    pub(crate) fn as_slice(&self) -> &[T]
        ensures value { result.now ≡ self.now }
        ensures few { length self.now ≤ N }
    {
        &self.items[..self.count]
    }

    /// One item more, behind the others.
    pub(crate) fn push(&mut self, item: T)
        requires room { length self.old < N }
        ensures value { self.new ≡ self.old ++ item ∷ [] }
    {
        self.items[self.count] = item;
        self.count += 1;
    }

    /// Drops all items but the first `count`.
    pub(crate) fn truncate(&mut self, count: usize)
        ensures value { self.new ≡ take count self.old }
    {
        self.count = self.count.min(count);
    }
}
