//! The tables of a map that removals read: its lists, face numbers and base, with a lookup of a dart's face.
ghost use Rattle.std.specs.Prelude.{◌≡◌, ◌<◌, ℕ, length};
ghost use Rattle.map_theory.specs.Maps.{HasDart, IsSimpleMap};
ghost use Rattle.convex_orders.specs.FaceNumbers.{entry, IsTable, AreFaceNumbers};
ghost use Rattle.convex_orders.specs.Shown.{IsBased};

use crate::face_numbers::FaceNumbers;
use map_lists::{ItemLists, Rotations};

/// The tables that removals read: a three-connected map of genus zero by its lists and face numbers, with a base dart.
#[derive(Drop)]
pub struct Tables {
    /// The lists of the map.
    pub lists: Rotations,
    /// The numbers of its faces.
    pub faces: FaceNumbers,
    /// The vertex that the base leaves.
    pub tail: u16,
    /// The vertex that the base leads to.
    pub head: u16,
    pub ghost few: { length lists < 4096 },
    pub ghost based: { ∥ IsBased lists tail head ∥₁ },
    pub ghost numbers: { AreFaceNumbers lists faces.own faces.other faces.count },
}

// Returns the entry of `table`, laid out like `lists`, for the dart from `x` to `y`, which the simple map has.
fn number_in(lists: &Rotations, table: &ItemLists<u32>, x: u16, y: u16) -> u32
    requires simple { IsSimpleMap lists.now }
    requires table { (count : ℕ) × IsTable lists.now table.now count }
    requires dart { HasDart lists.now x y }
    ensures { result ≡ entry lists.now table.now x y }
{
    let us = lists.list(x as usize);
    for k in 0..us.len() {
        if us[k] == y {
            return table.list(x as usize)[k];
        }
    }
    0
}

impl Tables {
    /// Returns the number of the face of the dart from `x` to `y`, which exists. It searches the shorter list of the
    /// two ends, which is fast at a vertex of high degree.
    pub(crate) fn number_of(&self, x: u16, y: u16) -> u32
        requires dart { HasDart self.now.lists x y }
        ensures { result ≡ entry self.now.lists self.now.faces.own x y }
    {
        if self.lists.list(x as usize).len() <= self.lists.list(y as usize).len() {
            number_in(&self.lists, &self.faces.own, x, y)
        } else {
            number_in(&self.lists, &self.faces.other, y, x)
        }
    }
}
