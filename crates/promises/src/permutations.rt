//! Promised contracts of permutations and their orbits.
ghost use Rattle.std.specs.List.{range_with_len};
ghost use Rattle.std.specs.Prelude.{◌≡◌, ◌≢◌, ◌+◌, ◌<◌, ◌^◌, IfOk, IfErr, length, true, false, swap};
ghost use Rattle.classes.specs.Classes.{IsPermutationOfBelow, image, orbits, orbit_count, same_class};
ghost use Rattle.pg_perm.specs.Perm.{IsPerm};
ghost use Rattle.pg_perm.specs.Repeat.{NamesFault};

use pg_perm::{Perm, PermFault};
use std::alloc::{AllocError, Global};

/// Makes the permutation of `k` numbers that moves none.
pub fn identity(alloc: Global, k: u32) -> Result<Perm, AllocError>
    ensures { IfOk result (λ perm. perm ≡ range_with_len 0 k) }
{
    Perm::identity(alloc, k)
}

/// Makes the permutation with these `images`, or names the first of them that is out of range or repeated.
pub fn of_images(alloc: Global, images: &[u32]) -> Result<Perm, PermFault>
    requires { length images.now < 2 ^ 32 }
    ensures images { IfOk result (λ perm. perm ≡ images.now) }
    ensures bijection { IfOk result IsPermutationOfBelow }
    ensures fault { IfErr result (NamesFault images.now) }
{
    Perm::of_images(alloc, images)
}

/// Returns how many numbers `perm` permutes.
pub fn size(perm: &Perm) -> u32
    ensures length { result ≡ length perm.now }
    ensures known { IsPerm perm.now }
{
    perm.len()
}

/// Returns the image of `i`.
pub fn image_of(perm: &Perm, i: u32) -> u32
    requires { i < length perm.now }
    ensures image { result ≡ image perm.now i }
    ensures within { result < length perm.now }
{
    perm.image(i)
}

/// Swaps the images of `a` and `b`, which cuts one orbit in two or joins two.
pub fn swap_images(perm: &mut Perm, a: u32, b: u32)
    requires a_in { a < length perm.old }
    requires b_in { b < length perm.old }
    ensures images { perm.new ≡ swap perm.old a b }
    ensures known { IsPerm perm.new }

    // The law of one swap: an orbit is cut in two, or two are made one.
    ensures cut { a ≢ b → same_class (orbits perm.old) a b ≡ true →
        orbit_count perm.new ≡ orbit_count perm.old + 1 }
    ensures joined { a ≢ b → same_class (orbits perm.old) a b ≡ false →
        orbit_count perm.old ≡ orbit_count perm.new + 1 }
    ensures same { a ≡ b → perm.new ≡ perm.old }
{
    perm.swap_images(a, b);
}

/// Counts the orbits of `perm`.
pub fn count_of_orbits(perm: &Perm, alloc: Global) -> Result<u32, AllocError>
    ensures { IfOk result (λ count. count ≡ orbit_count perm.now) }
{
    perm.orbit_count(alloc)
}

/// Tells whether `a` and `b` lie in one orbit.
pub fn same_orbit(perm: &Perm, a: u32, b: u32) -> bool
    requires a_in { a < length perm.now }
    requires b_in { b < length perm.now }
    ensures { result ≡ same_class (orbits perm.now) a b }
{
    perm.same_orbit(a, b)
}
