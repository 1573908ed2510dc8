//! The law of one swap: what an exchange of two images does to the orbits of a permutation.
ghost use Rattle.pg_perm.specs.Law.{OneSwap};

/// States the law of one swap. Let `images` be a permutation, and let a and b be different numbers below its length
/// whose images are exchanged. If a and b lie in one orbit, that orbit is cut in two, with a in one part and b in the
/// other. If not, their two orbits become one. No other orbit changes. So the number of orbits rises or falls by one.
/// It costs nothing to call.
pub fn one_swap()
    ensures { OneSwap }
{}
