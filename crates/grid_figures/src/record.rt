//! The lists of a record, as the type that methods of drawing take.
ghost use Rattle.std.specs.Prelude.{◌<◌, length};

use half_edges::Rotations;

// The lists of a record, one for each vertex: from 1 to 4095 of them.
#[derive(Clone, Copy)]
pub(crate) struct Record<'a> {
    pub(crate) lists: &'a Rotations,
    ghost some: { 0 < length lists.now },
    ghost few: { length lists.now < 4096 },
}
