//! `Perm`: a permutation as its list of images, with its orbits and the exchange of two images.
ghost use Rattle.std.specs.Prelude.{◌≡◌, ◌≢◌, ◌+◌, ◌<◌, ◌^◌, IsTrue, IfOk, IfErr, true, false, length, swap};
ghost use Rattle.std.specs.List.{range_with_len};
ghost use Rattle.classes.specs.Classes.{IsPermutationOfBelow, image, orbits, orbit_count, same_class};
ghost use Rattle.pg_perm.specs.Repeat.{NamesFault};

use crate::PermFault;
use crate::orbit_marks::count_orbits;
use crate::repeated_image::first_repeat;
use std::alloc::{AllocError, Global};
use std::marker::Model;

/// A bijection of the numbers below its length. Contracts see it as the list of the images, in order.
#[derive(Drop)]
pub struct Perm {
    images: Vec<u32>,
}

impl Model for Perm {
    ghost use Rattle.std.specs.Prelude.{ℕ, List};
    ghost use Rattle.pg_perm.specs.Perm.{IsPerm};

    ghost Value = { List ℕ };

    ghost view = { λ p. p.images.items };

    ghost invariant = { λ p. IsPerm p.images.items };
}

impl Perm {
    ghost use Rattle.pg_perm.specs.Perm.{IsPerm};

    /// Returns the permutation of the numbers below `k` that moves none.
    pub fn identity(alloc: Global, k: u32) -> Result<Perm, AllocError>
        ensures { IfOk result (λ perm. perm ≡ range_with_len 0 k) }
    {
        let mut images = Vec::with_capacity(alloc, k as usize)?;
        for i in 0..k {
            images.push(i)?;
        }
        Ok(Perm { images })
    }

    /// Returns the permutation with these images, which are fewer than 2^32 and are copied; or why there is none,
    /// `OutOfRange` before `Repeated`. The time is linear.
    pub fn of_images(alloc: Global, images: &[u32]) -> Result<Perm, PermFault>
        requires { length images.now < 2 ^ 32 }
        ensures images { IfOk result (λ perm. perm ≡ images.now) }
        ensures bijection { IfOk result IsPermutationOfBelow }
        ensures fault { IfErr result (NamesFault images.now) }
    {
        let len = images.len() as u32;
        if let Some(i) = images.iter().position(|x| *x >= len) {
            return Err(PermFault::OutOfRange(i as u32));
        }
        if let Some((i, j)) = first_repeat(alloc, images)? {
            return Err(PermFault::Repeated(i, j));
        }
        let images = Vec::from_slice(alloc, images)?;
        Ok(Perm { images })
    }

    /// Returns how many numbers it permutes.
    pub fn len(&self) -> u32
        ensures length { result ≡ length self.now }
        ensures known { IsPerm self.now }
    {
        self.images.len() as u32
    }

    /// Returns the image of `i`, which is below the length.
    pub fn image(&self, i: u32) -> u32
        requires { i < length self.now }
        ensures image { result ≡ image self.now i }
        ensures within { result < length self.now }
    {
        self.images[i as usize]
    }

    /// Exchanges the images of `a` and `b`, which are below the length. Where a is b nothing changes. Takes no memory.
    pub fn swap_images(&mut self, a: u32, b: u32)
        requires a_in { a < length self.old }
        requires b_in { b < length self.old }
        ensures images { self.new ≡ swap self.old a b }
        ensures known { IsPerm self.new }

        // The law of one swap: an orbit is cut in two, or two are made one.
        ensures cut { a ≢ b → same_class (orbits self.old) a b ≡ true →
            orbit_count self.new ≡ orbit_count self.old + 1 }
        ensures joined { a ≢ b → same_class (orbits self.old) a b ≡ false →
            orbit_count self.old ≡ orbit_count self.new + 1 }
        ensures same { a ≡ b → self.new ≡ self.old }
    {
        self.images.swap(a as usize, b as usize);
    }

    /// Returns the number of orbits. The time is linear. It fails only when out of memory.
    pub fn orbit_count(&self, alloc: Global) -> Result<u32, AllocError>
        ensures { IfOk result (λ count. count ≡ orbit_count self.now) }
    {
        let mut marked = vec![in alloc; false; self.images.len()]?;
        Ok(count_orbits(&self.images, &mut marked))
    }

    /// Says whether `a` and `b`, below the length, lie in one orbit. Takes no memory, and time linear in the orbit.
    pub fn same_orbit(&self, a: u32, b: u32) -> bool
        requires a_in { a < length self.now }
        requires b_in { b < length self.now }
        ensures { result ≡ same_class (orbits self.now) a b }
    {
        let mut x = a;
        // An orbit has no more numbers than there are, so this walk comes back to `a`.
        for _step in 0..self.images.len() {
            if x == b {
                return true;
            }
            x = self.images[x as usize];
            if x == a {
                return false;
            }
        }
        false
    }
}
