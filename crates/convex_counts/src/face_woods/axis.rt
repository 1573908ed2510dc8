//! The three axes of a realizer, as the type `Axis`.

/// One of the three axes, which are counted cyclically.
#[derive(Clone, Copy, PartialEq, Eq)]
pub enum Axis {
    /// The axis on which the head of the base is farthest out.
    One,
    /// That of the tail of the base.
    Two,
    /// That of the vertex before the base on its face.
    Three,
}
