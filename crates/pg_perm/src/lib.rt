//! Permutations of the numbers below k, their orbits, and what one exchange of two images does to them.
//!
//! A `Perm` is seen by contracts as its list of images, which is a bijection by the type's invariant. The layer above
//! uses the law of one swap: it is the contract of `Perm::swap_images`, and `one_swap` states it whole, for all lists.
#![tactic(auto)]

mod fault;
mod orbit_marks;
mod perm;
mod repeated_image;
mod swap_law;

pub use fault::PermFault;
pub use perm::Perm;
pub use swap_law::one_swap;
