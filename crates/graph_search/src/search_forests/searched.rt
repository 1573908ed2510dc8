//! A finished depth-first search, borrowed as slices: numbers, parents and low points.
ghost use Rattle.std.specs.Prelude.{◌≡◌, ◌<◌, ℕ, length, slice_index};
ghost use Rattle.map_theory.specs.Maps.{HasDart};

use map_lists::Rotations;

/// Lists, and for each vertex its number in a search of them, its parent and its low point.
#[derive(Clone, Copy)]
pub(crate) struct Searched<'a> {
    pub(crate) lists: &'a Rotations,
    pub(crate) number: &'a [u16],
    pub(crate) parent: &'a [u16],
    pub(crate) low: &'a [u16],
    pub(crate) ghost few: { length lists.now < 4096 },
    pub(crate) ghost in_range: { (v u : ℕ) → HasDart lists.now v u → u < length lists.now },
    pub(crate) ghost numbers: { length number.now ≡ length lists.now },
    pub(crate) ghost numbered: { (v : ℕ) → v < length lists.now → slice_index number.now v < length lists.now },
    pub(crate) ghost parents: { length parent.now ≡ length lists.now },
    pub(crate) ghost lows: { length low.now ≡ length lists.now },
}
