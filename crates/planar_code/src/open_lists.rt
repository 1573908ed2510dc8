//! `OpenLists`: the rotation lists of a record while its numbers come, with the last list open.
ghost use Rattle.std.specs.Prelude.{◌≡◌, ◌+◌, ◌<◌, ◌≤◌, [], length, OnOk};
ghost use Rattle.planar_code.specs.Open.{Collects};

use map_lists::Rotations;
use std::alloc::{AllocError, Global};
use std::marker::Model;
use std::mem;

// Returns how many lists `number` closes: 1 for 0, and else none.
#[inline(always)]
fn closings(number: u16) -> usize
    ensures one { number ≡ 0 → result ≡ 1 }
    ensures none { 0 < number → result ≡ 0 }
    ensures few { result ≤ 1 }
{
    if number == 0 { 1 } else { 0 }
}

/// The lists of a record while its numbers come: the closed ones, and the open one.
#[derive(Drop)]
pub struct OpenLists {
    alloc: Global,
    // the entries of all lists, one list after another
    entries: Vec<u16>,
    // for each closed list the index after its last entry
    ends: Vec<usize>,
}

impl Model for OpenLists {
    ghost use Rattle.std.specs.Prelude.{◌-◌, length, drop, vec_len, vec_capacity};
    ghost use Rattle.map_lists.specs.Cuts.{cut};
    ghost use Rattle.planar_code.specs.Open.{Open, last_end, AreWithin};

    ghost Value = { Open };

    ghost view = { λ l. record {
      lists = cut 0 l.ends.items l.entries.items;
      last = drop (last_end 0 l.ends.items) l.entries.items;
      room = vec_capacity l.entries - vec_len l.entries;
      most = vec_capacity l.ends;
    } };

    ghost invariant = { λ l. AreWithin 0 l.ends.items (length l.entries.items) };
}

impl OpenLists {
    /// Returns no lists. It takes no memory.
    pub fn new(alloc: Global) -> Self
        ensures lists { result.lists ≡ [] }
        ensures last { result.last ≡ [] }
    {
        OpenLists {
            alloc,
            entries: Vec::new(alloc),
            ends: Vec::new(alloc),
        }
    }

    /// Moves the lists out, and leaves none.
    pub fn take_out(&mut self) -> OpenLists
        ensures { result ≡ self.old }
    {
        mem::replace(self, OpenLists::new(self.alloc))
    }

    /// Reserves memory for `entries` more entries and `lists` lists. The lists stay. It fails only when out of memory.
    pub fn reserve(&mut self, entries: usize, lists: usize) -> Result<(), AllocError>
        ensures lists { self.new.lists ≡ self.old.lists }
        ensures last { self.new.last ≡ self.old.last }
        ensures room { OnOk result (entries ≤ self.new.room) }
        ensures most { OnOk result (lists ≤ self.new.most) }
    {
        self.entries.reserve(entries)?;
        if self.ends.len() < lists {
            self.ends.reserve(lists - self.ends.len())?;
        }
        Ok(())
    }

    /// Appends the vertex `number`, counted from 1, to the open list; 0 closes that list. Room must have been reserved.
    pub fn collect(&mut self, number: u16)
        requires room { 0 < self.old.room }
        requires most { length self.old.lists < self.old.most }
        ensures collects { Collects number self.old.lists self.old.last self.new.lists self.new.last }
        ensures room { self.old.room ≤ self.new.room + 1 }
        ensures most { self.new.most ≡ self.old.most }
    {
        let closes = closings(number);
        self.ends.push_reserved(self.entries.len());
        self.ends.truncate(self.ends.len() + closes - 1);
        self.entries.push_reserved(number.wrapping_sub(1));
        self.entries.truncate(self.entries.len() - closes);
    }

    /// Returns how many lists are closed.
    pub fn closed(&self) -> usize
        ensures { result ≡ length self.now.lists }
    {
        self.ends.len()
    }

    /// Moves the closed lists, fewer than 4096, to `lent`, and takes over its old memory. The open list must be empty.
    pub fn exchange(&mut self, lent: &mut Rotations)
        requires whole { self.old.last ≡ [] }
        requires few { length self.old.lists < 4096 }
        ensures lent { lent.new ≡ self.old.lists }
        ensures lists { self.new.lists ≡ [] }
        ensures last { self.new.last ≡ [] }
    {
        let (mut old_entries, mut old_ends) = mem::replace(
            lent,
            Rotations::new(self.alloc),
        ).into_parts();
        old_entries.clear();
        old_ends.clear();
        let kept = OpenLists {
            alloc: self.alloc,
            entries: old_entries,
            ends: old_ends,
        };
        let whole = mem::replace(self, kept);
        *lent = Rotations::from_parts(whole.entries, whole.ends);
    }

    /// Forgets the lists, and keeps their memory.
    pub fn clear(&mut self)
        ensures lists { self.new.lists ≡ [] }
        ensures last { self.new.last ≡ [] }
        ensures room { self.old.room ≤ self.new.room }
        ensures most { self.new.most ≡ self.old.most }
    {
        self.entries.clear();
        self.ends.clear();
    }
}
