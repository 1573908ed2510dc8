//! The contour as a list of vertices with a current position, kept as two stacks.
//!
//! One stack has the vertices before that position, the other those from it on. So one part of the list is replaced by
//! another there in as many steps as the two have vertices.
ghost use Rattle.std.specs.Prelude.{◌≡◌, ◌+◌, ◌<◌, ◌≤◌, suc, [], length, slice_index, IfOk};
ghost use Rattle.convex_orders.specs.Contours.{vertices_of};

use std::alloc::{AllocError, Global};

/// A list of vertices with a current position in it.
#[derive(Drop)]
pub(crate) struct Contour {
    /// The vertices before the current position.
    pub(crate) left: Vec<u16>,
    /// Those from the current position on, the last first.
    pub(crate) right: Vec<u16>,
}

impl Contour {
    /// Returns a contour of no vertices. It takes no memory.
    pub(crate) fn new(alloc: Global) -> Contour {
        Contour {
            left: Vec::new(alloc),
            right: Vec::new(alloc),
        }
    }

    /// Removes all vertices.
    pub(crate) fn clear(&mut self)
        ensures left { self.new.left.items ≡ [] }
        ensures right { self.new.right.items ≡ [] }
    {
        self.left.clear();
        self.right.clear();
    }

    /// Returns how many vertices there are.
    pub(crate) fn len(&self) -> usize
        ensures { result ≡ length (vertices_of self.now) }
    {
        self.left.len() + self.right.len()
    }

    /// Returns the vertex at index `i`.
    pub(crate) fn vertex(&self, i: usize) -> u16
        requires { i < length (vertices_of self.now) }
        ensures { result ≡ slice_index (vertices_of self.now) i }
    {
        if i < self.left.len() {
            self.left[i]
        } else {
            self.right[self.right.len() - 1 - (i - self.left.len())]
        }
    }

    /// Moves the current position back by one vertex; there has to be one before it. It fails only when out of memory.
    pub(crate) fn step_back(&mut self) -> Result<(), AllocError>
        requires { 0 < length self.old.left.items }
        ensures same { IfOk result (λ _. vertices_of self.new ≡ vertices_of self.old) }
        ensures long { IfOk result (λ _. suc (length self.new.left.items) ≡ length self.old.left.items) }
        ensures more { IfOk result (λ _. length self.new.right.items ≡ suc (length self.old.right.items)) }
    {
        let k = self.left.len() - 1;
        let x = self.left[k];
        self.left.truncate(k);
        self.right.push(x)?;
        Ok(())
    }

    // Moves the current position forward by one vertex; there has to be one after it. It fails only when out of memory.
    fn step_on(&mut self) -> Result<(), AllocError>
        requires { 0 < length self.old.right.items }
        ensures same { IfOk result (λ _. vertices_of self.new ≡ vertices_of self.old) }
        ensures long { IfOk result (λ _. length self.new.left.items ≡ suc (length self.old.left.items)) }
        ensures less { IfOk result (λ _. suc (length self.new.right.items) ≡ length self.old.right.items) }
    {
        let k = self.right.len() - 1;
        let x = self.right[k];
        self.right.truncate(k);
        self.left.push(x)?;
        Ok(())
    }

    /// Moves the current position so that `count` vertices are before it. It fails only when out of memory.
    pub(crate) fn move_to(&mut self, count: usize) -> Result<(), AllocError>
        requires { count ≤ length self.old.left.items + length self.old.right.items }
        ensures same { IfOk result (λ _. vertices_of self.new ≡ vertices_of self.old) }
        ensures long { IfOk result (λ _. length self.new.left.items ≡ count) }
    {
        for _back in count..self.left.len() {
            self.step_back()?;
        }
        for _on in self.left.len()..count {
            self.step_on()?;
        }
        Ok(())
    }
}
