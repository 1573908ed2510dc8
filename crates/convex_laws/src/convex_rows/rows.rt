//! The steps of a construction sequence as the type `ConvexRows`: intervals, cuts and new vertices.

use map_lists::ItemLists;

/// Lists what each step of a run puts on, and over which vertices of the contour, the last step first.
#[derive(Drop)]
pub struct ConvexRows {
    /// The vertices of the contour from the first place of the step to the last, both included.
    pub rows: ItemLists<u16>,
    /// The cuts, as places in that row: the first is 0, the last is that of its last vertex.
    pub cuts: ItemLists<u16>,
    /// The new vertices, from the first place to the last.
    pub news: ItemLists<u16>,
}
