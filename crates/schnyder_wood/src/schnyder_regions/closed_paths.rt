//! `ClosedPath`: the type of the closed path that bounds a region.
ghost use Rattle.std.specs.Prelude.{◌≡◌, length};

use map_lists::VertexId;

// The closed path that bounds a region: for each vertex the next one along the path of the next colour and of the
// previous one, and the roots of both.
#[derive(Drop)]
pub(crate) struct ClosedPath {
    pub(crate) nexts: Vec<u16>,
    pub(crate) previouses: Vec<u16>,
    pub(crate) next_root: VertexId,
    pub(crate) previous_root: VertexId,
    ghost count: { length previouses.items ≡ length nexts.items },
}
