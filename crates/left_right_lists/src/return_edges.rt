//! A graph with its depth-first tree, and all edges from lower to upper end.
ghost use Rattle.std.specs.Prelude.{◌≡◌, ◌<◌, ◌-◌, ◌↔◌, ◌++◌, ◌∷◌, [], cond, slice_index, true, IsTrue, IfOk};
ghost use Rattle.left_right_maps.specs.RootedMaps.{is_child as is_child_in};
ghost use Rattle.left_right_lists.specs.Trees.{joined as joined_in};
ghost use Rattle.left_right_lists.specs.Sides.{IsRising};
ghost use Rattle.left_right_lists.specs.Upward.{IsUpward};

use crate::tree::{Tree, tree_of};
use graphs::Graph;
use left_right_check::entry;
use map_lists::VertexId;
use std::alloc::{AllocError, Global};

/// Appends `item` to `list`, but only if `wanted` is set. It fails only when out of memory.
pub(crate) fn push_if<T: Copy>(list: &mut Vec<T>, wanted: bool, item: T) -> Result<(), AllocError>
    ensures { IfOk result (λ _. list.new.items ≡ cond wanted (list.old.items ++ item ∷ []) list.old.items) }
{
    if wanted {
        list.push(item)?;
    }
    Ok(())
}

/// A graph, and a depth-first tree of it.
#[derive(Clone, Copy)]
pub(crate) struct RootedGraph<'a> {
    pub graph: &'a Graph,
    pub tree: &'a Tree,
}

impl<'a> RootedGraph<'a> {
    /// Returns the index of vertex `u` in a table in which the last vertices of the tree's order come first.
    pub(crate) fn place_of(&self, u: u16) -> usize
        ensures { result ≡ self.now.graph.now.n - 1 - slice_index self.now.tree.now.number.items u }
    {
        usize::from(self.graph.n())
            .saturating_sub(1)
            .saturating_sub(usize::from(entry(&self.tree.number, u)))
    }

    /// Says whether vertex `v` is the parent of `u`.
    pub(crate) fn is_child(&self, v: u16, u: u16) -> bool
        ensures { result ≡ is_child_in (slice_index self.now.tree.now.parents.items) (slice_index self.now.tree.now.depths.items) v u }
    {
        entry(&self.tree.depths, u) != 0 && entry(&self.tree.parents, u) == v
    }

    /// Says whether an edge of the graph or of its tree joins `u` and `v`.
    pub(crate) fn are_joined(&self, u: u16, v: u16) -> bool
        ensures { result ≡ joined_in self.now.graph.now self.now.tree.now.parents.items self.now.tree.now.depths.items u v }
    {
        if self.graph.has(VertexId(u), VertexId(v)) {
            return true;
        }
        self.is_child(u, v) || self.is_child(v, u)
    }

    // Says whether `d` is an edge of the graph or the tree, from its deeper end to the other.
    fn is_rising(&self, d: (u16, u16)) -> bool
        ensures { IsTrue result ↔ IsRising self.now.graph.now self.now.tree.now.parents.items self.now.tree.now.depths.items d }
    {
        entry(&self.tree.depths, d.1) < entry(&self.tree.depths, d.0) && self.are_joined(d.0, d.1)
    }
}

/// A depth-first tree of a graph, and the edges that lead upwards in it.
#[derive(Drop)]
pub(crate) struct Upward {
    /// The tree.
    pub tree: Tree,
    /// The edges of the graph and the tree, from their lower ends to their upper ones, each once.
    pub darts: Vec<(u16, u16)>,
}

/// Returns a depth-first tree of `graph`, which has a vertex, and all edges from lower to upper end. It fails only when
/// out of memory.
pub(crate) fn upward_of(alloc: Global, graph: &Graph) -> Result<Upward, AllocError>
    requires { 0 < graph.now.n }
    ensures { IfOk result (IsUpward graph.now) }
{
    let tree = tree_of(alloc, graph)?;
    let rooted = RootedGraph { graph, tree: &tree };
    let mut darts = Vec::new(alloc);
    for v in 0..graph.n() {
        for u in 0..graph.n() {
            let rises = rooted.is_rising((v, u));
            push_if(&mut darts, rises, (v, u))?;
        }
    }
    Ok(Upward { tree, darts })
}
