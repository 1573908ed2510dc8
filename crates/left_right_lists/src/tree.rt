//! The depth-first tree of a graph, as tables of order, parents and depths, with one root for all components.
ghost use Rattle.std.specs.Prelude.{◌<◌, IfOk};
ghost use Rattle.left_right_lists.specs.Trees.{IsTreeOf};

use crate::joined_forest::JoinedForest;
use crate::search_depths::depths_of;
use conn_parts::graph_cuts::graph_lists;
use graph_search::search_forests::search_forest;
use graphs::Graph;
use left_right_check::entry;
use std::alloc::{AllocError, Global};

/// A depth-first tree of a graph, as tables. The root is made the parent of a vertex of each other component.
#[derive(Drop)]
pub struct Tree {
    /// The root.
    pub root: u16,
    /// The vertices, each after its parent.
    pub order: Vec<u16>,
    /// For each vertex its index in `order`.
    pub number: Vec<u16>,
    /// For each vertex its parent.
    pub parents: Vec<u16>,
    /// For each vertex how many steps it is below the root.
    pub depths: Vec<u16>,
}

/// Returns a depth-first tree of `graph`, which has a vertex. It fails only when out of memory.
pub fn tree_of(alloc: Global, graph: &Graph) -> Result<Tree, AllocError>
    requires { 0 < graph.now.n }
    ensures { IfOk result (IsTreeOf graph.now) }
{
    let n = graph.n();
    let lists = graph_lists(alloc, graph)?;
    let forest = search_forest(alloc, &lists)?;
    let depths = depths_of(alloc, &lists, &forest)?;
    let root = entry(&forest.order, 0);
    let one = JoinedForest {
        parents: &forest.parent,
        depths: &depths,
        root,
    };
    let grown_parents = one.all_parents(alloc, n)?;
    let grown_depths = one.all_depths(alloc, n)?;
    Ok(Tree {
        root,
        order: forest.order,
        number: forest.number,
        parents: grown_parents,
        depths: grown_depths,
    })
}
