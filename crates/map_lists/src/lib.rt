//! Ids of vertices, darts and faces, and the two kinds of list that records of other crates hold: lists of
//! items, and lists of lists of items.
#![tactic(auto)]

mod ids;
mod item_lists;
mod items;
mod rotations;

pub use ids::{DartId, FaceId, VertexId};
pub use item_lists::{ItemLists, PathList};
pub use items::{Counts, EdgeList, Ends, ItemList, VertexList};
pub use rotations::{MOST_VERTICES, Rotations};
