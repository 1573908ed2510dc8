//! A boxed value, which is moved as one pointer.
ghost use Rattle.std.specs.Prelude.{◌≡◌, IfOk};

use std::alloc::{AllocError, Global};
use std::marker::Model;

/// A boxed value, which stays at its address in memory. Contracts see it as just that value.
#[derive(Drop)]
pub struct Held<T: Drop> {
    pub(crate) inside: Box<T>,
}

impl<T: Drop> Model for Held<T> {
    ghost Value = { T };

    ghost view = { λ held. held.inside.value };
}

impl<T: Drop> Held<T> {
    /// Puts `value` in a box. It fails only when out of memory.
    pub fn new(alloc: Global, value: T) -> Result<Held<T>, AllocError>
        ensures { IfOk result (λ held. held ≡ value) }
    {
        match Box::new(alloc, value) {
            Ok(inside) => Ok(Held { inside }),
            Err(_) => Err(AllocError),
        }
    }

    /// Moves the value out of its box.
    pub fn into_inner(self) -> T
        ensures { result ≡ self }
    {
        Box::into_inner(self.inside)
    }
}
