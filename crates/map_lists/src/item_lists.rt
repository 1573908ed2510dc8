//! `ItemLists`: lists of lists of copied items, all of them in one vector.
ghost use Rattle.std.specs.Prelude.{◌≡◌, ◌<◌, ◌≤◌, List, [], ◌∷◌, ◌++◌, length, sum_by, take, slice_index_or, slice_range, OnOk, OnErr, IfOk};
ghost use Rattle.map_lists.specs.Cuts.{cut, joined, AreCuts, ends_from};

use crate::VertexId;
use std::alloc::{AllocError, Global};
use std::marker::Model;

/// A list of paths, each a list of vertices.
pub type PathList = ItemLists<VertexId>;

/// A list of lists of items, of any lengths. Contracts see it as just that.
///
/// All items stand in one vector, list after list. So lists come one by one without a vector of their own. `open`
/// begins an empty list at the end, and `append` gives the last list an item. `clear` and `truncate` keep the memory
/// for the lists to come. A loop that needs the vectors takes them by `into_parts` and gives them back by `from_parts`.
#[derive(Drop)]
pub struct ItemLists<T: Copy> {
    // all lists, one after another
    entries: Vec<T>,
    // for each list the index after its last entry
    ends: Vec<usize>,
}

impl<T: Copy> Model for ItemLists<T> {
    ghost use Rattle.std.specs.Prelude.{List, length};
    ghost use Rattle.map_lists.specs.Cuts.{cut, AreCuts};

    ghost Value = { List (List T) };

    ghost view = { λ l. cut 0 l.ends.items l.entries.items };

    ghost invariant = { λ l. AreCuts 0 l.ends.items (length l.entries.items) };
}

impl<T: Copy> ItemLists<T> {
    /// Returns an empty list of lists. It takes no memory.
    pub fn new(alloc: Global) -> Self
        ensures { result ≡ [] }
    {
        ItemLists {
            entries: Vec::new(alloc),
            ends: Vec::new(alloc),
        }
    }

    /// Returns an empty list of lists, with room for `items` items in `lists` lists. Fails only when out of memory.
    pub fn with_capacity(alloc: Global, items: usize, lists: usize) -> Result<Self, AllocError>
        ensures { IfOk result (λ list. list ≡ []) }
    {
        let entries = Vec::with_capacity(alloc, items)?;
        let ends = Vec::with_capacity(alloc, lists)?;
        Ok(ItemLists { entries, ends })
    }

    /// Returns the lists into which `ends`, the index after the last item of each, cuts `entries`.
    pub fn from_parts(entries: Vec<T>, ends: Vec<usize>) -> Self
        requires { AreCuts 0 ends.items (length entries.items) }
        ensures { result ≡ cut 0 ends.items entries.items }
    {
        ItemLists { entries, ends }
    }

    /// Returns all items, list after list, and for each list the index after its last item.
    pub fn into_parts(self) -> (Vec<T>, Vec<usize>)
        ensures entries { result.0.items ≡ joined self }
        ensures ends { result.1.items ≡ ends_from 0 self }
    {
        (self.entries, self.ends)
    }

    /// Appends a copy of `list`. After an error nothing has changed.
    pub fn push(&mut self, list: &[T]) -> Result<(), AllocError>
        ensures ok { OnOk result (self.new ≡ self.old ++ list.now ∷ []) }
        ensures err { OnErr result (self.new ≡ self.old) }
    {
        let before = self.entries.len();
        self.entries.extend_from_slice(list)?;
        match self.ends.push(self.entries.len()) {
            Ok(()) => Ok(()),
            Err(_) => {
                self.entries.truncate(before);
                Err(AllocError)
            }
        }
    }

    /// Begins an empty list at the end. After an error nothing has changed.
    pub fn open(&mut self) -> Result<(), AllocError>
        ensures ok { OnOk result (self.new ≡ self.old ++ [] ∷ []) }
        ensures err { OnErr result (self.new ≡ self.old) }
    {
        self.push(&[])
    }

    /// Appends an item to the last list. After an error nothing has changed.
    pub fn append(&mut self, item: T) -> Result<(), AllocError>
        requires { 0 < length self.old }
        ensures ok { OnOk result ((before : List (List T)) (last : List T) → self.old ≡ before ++ last ∷ []
            → self.new ≡ before ++ (last ++ item ∷ []) ∷ []) }
        ensures err { OnErr result (self.new ≡ self.old) }
    {
        match self.entries.push(item) {
            Ok(()) => {
                let last = self.ends.len() - 1;
                self.ends[last] = self.entries.len();
                Ok(())
            }
            Err(_) => Err(AllocError),
        }
    }

    /// Removes all lists, and keeps the memory.
    pub fn clear(&mut self)
        ensures { self.new ≡ [] }
    {
        self.entries.clear();
        self.ends.clear();
    }

    /// Removes the lists from number `count` on, and keeps the memory.
    pub fn truncate(&mut self, count: usize)
        ensures { self.new ≡ take count self.old }
    {
        if count < self.ends.len() {
            self.entries.truncate(start_of(&self.ends, count));
            self.ends.truncate(count);
        }
    }

    /// Returns the number of lists.
    pub fn len(&self) -> usize
        ensures { result ≡ length self.now }
    {
        self.ends.len()
    }

    /// Returns the number of items of all lists together.
    pub fn total(&self) -> usize
        ensures { result ≡ sum_by length self.now }
    {
        self.entries.len()
    }

    /// Returns list number `i`, from 0.
    pub fn list(&self, i: usize) -> &[T]
        requires { i < length self.now }
        ensures { result.now ≡ slice_index_or self.now i [] }
    {
        piece(&self.entries, &self.ends, i)
    }

    /// Returns all items, list after list.
    pub fn entries(&self) -> &[T]
        ensures { result.now ≡ joined self.now }
    {
        &self.entries
    }

    /// Returns for each list the index after its last item, among all items.
    pub fn ends(&self) -> &[usize]
        ensures { result.now ≡ ends_from 0 self.now }
    {
        &self.ends
    }
}

// Returns the items of list number `i`: those of `entries` up to index `ends[i]`.
fn piece<'a, T: Copy>(entries: &'a [T], ends: &[usize], i: usize) -> &'a [T]
    requires in_ends { i < length ends.now }
    requires cuts { AreCuts 0 ends.now (length entries.now) }
    ensures { result.now ≡ slice_index_or (cut 0 ends.now entries.now) i [] }
{
    part(entries, start_of(ends, i), ends[i])
}

// Returns the index at which list number `i` begins: the end in `ends` of the list before it, or 0.
fn start_of(ends: &[usize], i: usize) -> usize
    requires { i < length ends.now }
    ensures { result ≡ slice_index_or (0 ∷ ends.now) i 0 }
{
    if i == 0 { 0 } else { ends[i - 1] }
}

// Returns the part `start..end` of `entries`.
fn part<T: Copy>(entries: &[T], start: usize, end: usize) -> &[T]
    requires order { start ≤ end }
    requires within { end ≤ length entries.now }
    ensures { result.now ≡ slice_range entries.now start end }
{
    &entries[start..end]
}
