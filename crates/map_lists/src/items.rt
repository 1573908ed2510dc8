//! `ItemList`: a list of copied items, and its types for counts, vertices and edges.
ghost use Rattle.std.specs.Prelude.{◌≡◌, ◌<◌, ◌^◌, [], ◌∷◌, ◌++◌, length, slice_get, Some, OnOk, OnErr, IfOk};
ghost use Rattle.std.specs.Iterator.Runs.{EveryRun, ItemsMapTo};
ghost use Rattle.std.specs.Slice.Iter.{iter_rest, iter_steps};

use crate::VertexId;
use std::alloc::{AllocError, Global};
use std::marker::Model;
use std::slice;

/// An edge, by its two ends. The first is the lesser; edges are in order by it and then by the second.
#[derive(Clone, Copy, PartialEq, Eq)]
pub struct Ends {
    /// The lesser end.
    pub a: VertexId,
    /// The greater end.
    pub b: VertexId,
    pub ghost rising: { a.0 < b.0 },
}

/// A list of numbers.
pub type Counts = ItemList<u32>;

/// A list of vertices.
pub type VertexList = ItemList<VertexId>;

/// A list of edges.
pub type EdgeList = ItemList<Ends>;

/// A list of items. Contracts see it as just that.
#[derive(Drop)]
pub struct ItemList<T: Copy> {
    items: Vec<T>,
}

impl<T: Copy> Model for ItemList<T> {
    ghost use Rattle.std.specs.Prelude.{List};

    ghost Value = { List T };

    ghost view = { λ l. l.items.items };
}

impl<T: Copy> ItemList<T> {
    /// Returns the empty list. It takes no memory.
    pub fn new(alloc: Global) -> Self
        ensures { result ≡ [] }
    {
        ItemList {
            items: Vec::new(alloc),
        }
    }

    /// Returns an empty list, with room for `capacity` items. It fails only when out of memory.
    pub fn with_capacity(alloc: Global, capacity: usize) -> Result<Self, AllocError>
        ensures { IfOk result (λ list. list ≡ []) }
    {
        let items = Vec::with_capacity(alloc, capacity)?;
        Ok(ItemList { items })
    }

    /// Makes a list of the items of a vector, in its memory.
    pub fn from_vec(items: Vec<T>) -> Self
        ensures { result ≡ items.items }
    {
        ItemList { items }
    }

    /// Returns the items as a vector, in the memory of the list.
    pub fn into_vec(self) -> Vec<T>
        ensures { result.items ≡ self }
    {
        self.items
    }

    /// Returns an empty list with room for `capacity` items, in this one's memory. Fails only when out of memory.
    pub fn emptied(self, capacity: usize) -> Result<Self, AllocError>
        ensures { IfOk result (λ list. list ≡ []) }
    {
        let mut items = self.items;
        items.clear();
        items.reserve(capacity)?;
        Ok(ItemList { items })
    }

    /// Appends an item. After an error nothing has changed.
    pub fn push(&mut self, item: T) -> Result<(), AllocError>
        ensures ok { OnOk result (self.new ≡ self.old ++ item ∷ []) }
        ensures err { OnErr result (self.new ≡ self.old) }
    {
        match self.items.push(item) {
            Ok(()) => Ok(()),
            Err(_) => Err(AllocError),
        }
    }

    /// Returns the number of items.
    pub fn len(&self) -> usize
        ensures { result ≡ length self.now }
    {
        self.items.len()
    }

    /// Returns item number `i`, from 0.
    pub fn get(&self, i: usize) -> T
        requires { i < length self.now }
        ensures { slice_get self.now i ≡ Some result }
    {
        self.items[i]
    }

    /// Returns the items, in order.
    pub fn as_slice(&self) -> &[T]
        ensures { result.now ≡ self.now }
    {
        self.items.as_slice()
    }

    /// Goes over the items, in order.
    pub fn iter(&self) -> slice::Iter<'_, T>
        ensures items { iter_rest result ≡ self.now }
        ensures few { length (iter_rest result) < 2 ^ 64 }
    {
        self.as_slice().iter()
    }
}

impl<'a, T: Copy> IntoIterator for &'a ItemList<T> {
    type Item = &'a T;

    type IntoIter = slice::Iter<'a, T>;

    ghost into_iter_gives = { λ list it. (iter_rest it ≡ list.now) × (length (iter_rest it) < 2 ^ 64)
        × EveryRun (iter_steps {A = T}) (λ p. ItemsMapTo p (λ x. x.now) (iter_rest p.from)) };

    // Goes over the items, in order.
    fn into_iter(self) -> slice::Iter<'a, T> {
        self.as_slice().iter()
    }
}
