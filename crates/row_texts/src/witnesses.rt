//! Kuratowski witnesses parsed from the text of a row.
use crate::row_arguments::number;
use kuratowski::{Kind, Witness};
use map_lists::{PathList, VertexId, VertexList};
use std::alloc::Global;

/// Returns the witness of a kind, whose branches are the first vertices, with the paths that a text has between its
/// semicolons.
pub fn witness_of(alloc: Global, name: &str, text: &str) -> Witness {
    let (kind, count) = if name == "K5" {
        (Kind::K5, 5)
    } else {
        (Kind::K33, 6)
    };
    let mut branch = VertexList::new(alloc);
    for v in 0..count {
        let _ = branch.push(VertexId(v));
    }
    let mut paths = PathList::new(alloc);
    for path in text.split(';') {
        let mut vertices = Vec::new(alloc);
        for word in path.split_whitespace() {
            let _ = vertices.push(VertexId(number(word)));
        }
        let _ = paths.push(&vertices);
    }
    Witness {
        kind,
        branch,
        paths,
    }
}
