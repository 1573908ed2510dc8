//! `Rotations`: the rotation lists of a map, at most 4095.
ghost use Rattle.std.specs.Prelude.{◌≡◌, ◌<◌, [], ◌∷◌, ◌++◌, length, sum_by, take, slice_index_or, OnOk, OnErr};
ghost use Rattle.map_lists.specs.Cuts.{cut, joined, AreCuts, ends_from};

use crate::ItemLists;
use std::alloc::{AllocError, Global};
use std::marker::Model;

/// The most vertices that a map has.
pub const MOST_VERTICES: u16 = 4095;

/// Rotation lists: for each vertex, by its number from 0, the vertices round it. Contracts see them as that list of
/// lists, which are at most 4095: `len` and `facts` say so. They are made list by list, as `ItemLists`, or of their two
/// vectors.
#[derive(Drop)]
pub struct Rotations {
    lists: ItemLists<u16>,
}

impl Model for Rotations {
    ghost use Rattle.std.specs.Prelude.{ℕ, List, length, ◌<◌};

    ghost Value = { List (List ℕ) };

    ghost view = { λ r. r.lists };

    ghost invariant = { λ r. length r.lists < 4096 };
}

impl Rotations {
    /// Returns no lists. It takes no memory.
    pub fn new(alloc: Global) -> Self
        ensures { result ≡ [] }
    {
        Rotations {
            lists: ItemLists::new(alloc),
        }
    }

    /// Takes `lists`, which are at most 4095, as rotation lists, in the same memory.
    pub fn from_lists(lists: ItemLists<u16>) -> Self
        requires { length lists < 4096 }
        ensures { result ≡ lists }
    {
        Rotations { lists }
    }

    /// Returns the lists into which `ends`, the index after the last entry of each, cuts `entries`.
    pub fn from_parts(entries: Vec<u16>, ends: Vec<usize>) -> Self
        requires cuts { AreCuts 0 ends.items (length entries.items) }
        requires few { length ends.items < 4096 }
        ensures { result ≡ cut 0 ends.items entries.items }
    {
        Rotations {
            lists: ItemLists::from_parts(entries, ends),
        }
    }

    /// Returns all entries, list after list, and for each list the index after its last entry.
    pub fn into_parts(self) -> (Vec<u16>, Vec<usize>)
        ensures entries { result.0.items ≡ joined self }
        ensures ends { result.1.items ≡ ends_from 0 self }
    {
        self.lists.into_parts()
    }

    /// Appends a copy of `list`, as the list of the vertex after the last. Fails only when out of memory, and then
    /// nothing has changed.
    pub fn push(&mut self, list: &[u16]) -> Result<(), AllocError>
        requires { length self.old < 4095 }
        ensures ok { OnOk result (self.new ≡ self.old ++ list.now ∷ []) }
        ensures err { OnErr result (self.new ≡ self.old) }
    {
        self.lists.push(list)
    }

    /// Removes all lists, and keeps the memory.
    pub fn clear(&mut self)
        ensures { self.new ≡ [] }
    {
        self.lists.clear();
    }

    /// Removes the lists from number `count` on, and keeps the memory.
    pub fn truncate(&mut self, count: usize)
        ensures { self.new ≡ take count self.old }
    {
        self.lists.truncate(count);
    }

    /// Returns the number of lists, which is at most 4095.
    pub fn len(&self) -> usize
        ensures is { result ≡ length self.now }
        ensures few { length self.now < 4096 }
    {
        self.lists.len()
    }

    /// Does nothing. By its contract a proof learns that there are at most 4095 lists.
    pub fn facts(&self)
        ensures { length self.now < 4096 }
    {
        self.len();
    }

    /// Returns the number of entries of all lists together.
    pub fn total(&self) -> usize
        ensures { result ≡ sum_by length self.now }
    {
        self.lists.total()
    }

    /// Returns list number `i`, from 0.
    pub fn list(&self, i: usize) -> &[u16]
        requires { i < length self.now }
        ensures { result.now ≡ slice_index_or self.now i [] }
    {
        self.lists.list(i)
    }

    /// Returns all entries, list after list.
    pub fn entries(&self) -> &[u16]
        ensures { result.now ≡ joined self.now }
    {
        self.lists.entries()
    }

    /// Returns for each list the index after its last entry, among all entries.
    pub fn ends(&self) -> &[usize]
        ensures { result.now ≡ ends_from 0 self.now }
    {
        self.lists.ends()
    }
}
