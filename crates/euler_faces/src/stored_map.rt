//! A simple map by its stored lists, as the type `StoredMap`: darts are numbered by the indices of their entries.
ghost use Rattle.std.specs.Prelude.{◌≡◌, ◌+◌, ◌<◌, ◌==◌, if◌then◌else◌, ◌∷◌, length, slice_index, slice_index_or};
ghost use Rattle.map_lists.specs.Cuts.{cut, AreCuts};
ghost use Rattle.map_theory.specs.Maps.{IsSimpleMap, dart_count};

/// Stands in place of a twin's number once a dart was walked over.
pub(crate) const WALKED: u32 = u32::MAX;

/// The lists of a simple map, concatenated in `entries`, each up to its end in `ends`.
///
/// A dart's number is the index of its entry.
#[derive(Clone, Copy)]
pub(crate) struct StoredMap<'a> {
    pub(crate) entries: &'a [u16],
    pub(crate) ends: &'a [usize],
    pub(crate) ghost cuts: { ∥ AreCuts 0 ends.now (length entries.now) ∥₁ },
    pub(crate) ghost simple: { ∥ IsSimpleMap (cut 0 ends.now entries.now) ∥₁ },
    pub(crate) ghost few: { length ends.now < 4096 },
}

impl StoredMap<'_> {
    // Does nothing. By its contract a proof learns what holds of the lists.
    pub(crate) fn facts(&self)
        ensures cuts { AreCuts 0 self.now.ends.now (length self.now.entries.now) }
        ensures simple { IsSimpleMap (cut 0 self.now.ends.now self.now.entries.now) }
        ensures vertices { length (cut 0 self.now.ends.now self.now.entries.now) ≡ length self.now.ends.now }
        ensures darts { dart_count (cut 0 self.now.ends.now self.now.entries.now) ≡ length self.now.entries.now }
        ensures few { length self.now.entries.now < 16777216 }
    {}

    // Returns the number of the first dart of list `v`.
    #[inline(always)]
    pub(crate) fn start_of(&self, v: usize) -> usize
        requires { v < length self.now.ends.now }
        ensures { result ≡ slice_index_or (0 ∷ self.now.ends.now) v 0 }
    {
        if v == 0 { 0 } else { self.ends[v - 1] }
    }

    // Returns the number of the dart after dart `d` in list `v`, cyclically.
    #[inline(always)]
    pub(crate) fn after(&self, v: usize, d: usize) -> usize
        requires v_in { v < length self.now.ends.now }
        requires fits { d < 4294967295 }
        ensures { result ≡ (if d + 1 == slice_index self.now.ends.now v then slice_index_or (0 ∷ self.now.ends.now) v 0 else d + 1) }
    {
        if d + 1 == self.ends[v] {
            self.start_of(v)
        } else {
            d + 1
        }
    }
}
