//! A rotation list read cyclically: the entry before or after another.
ghost use Rattle.std.specs.Prelude.{◌≡◌, ◌≢◌, ◌<◌, length, slice_index, AllPairs, Contains};
ghost use Rattle.map_theory.specs.Maps.{entry_after};

// A list without repeats, read cyclically.
#[derive(Clone, Copy)]
pub(crate) struct Ring<'a> {
    pub(crate) us: &'a [u16],
    ghost distinct: { AllPairs ◌≢◌ us.now },
}

impl Ring<'_> {
    // Returns the entry that follows the one at index `k`, cyclically.
    pub(crate) fn next_at(&self, k: usize) -> u16
        requires { k < length self.now.us.now }
        ensures { result ≡ entry_after (slice_index self.now.us.now k) self.now.us.now }
    {
        let us = self.us;
        if k + 1 < us.len() { us[k + 1] } else { us[0] }
    }

    // Returns the entry that precedes the one at index `k`, cyclically.
    pub(crate) fn previous_at(&self, k: usize) -> u16
        requires { k < length self.now.us.now }
        ensures { entry_after result self.now.us.now ≡ slice_index self.now.us.now k }
    {
        let us = self.us;
        if 0 < k { us[k - 1] } else { us[us.len() - 1] }
    }

    // Returns the entry after the entry `u`, cyclically.
    pub(crate) fn next(&self, u: u16) -> u16
        requires { Contains self.now.us.now u }
        ensures { result ≡ entry_after u self.now.us.now }
    {
        let ring = *self;
        for k in 0..ring.us.len() {
            if ring.us[k] == u {
                return ring.next_at(k);
            }
        }
        u
    }
}
