//! Rooted forests of a graph, as tables of parents and depths by vertex, and a vertex's return edges (back edges).
ghost use Rattle.std.specs.Prelude.{◌≡◌, slice_index, IsTrue};
ghost use Rattle.left_right_laws.specs.Forests.{up, IsAbove, IsBranch};
ghost use Rattle.left_right_check.specs.Ties.{IsForestOf, ReturnsBy};

use graphs::Graph;
use map_lists::VertexId;

/// A return edge, or back edge: from a vertex to an ancestor of it.
#[derive(Clone, Copy)]
pub struct ReturnEdge {
    /// The lower end.
    pub from: u16,
    /// The upper end, which is nearer to the root.
    pub to: u16,
}

/// Returns the entry at index `place` of `list`, or 0 past its end.
pub fn entry(list: &[u16], place: u16) -> u16
    ensures { result ≡ slice_index list.now place }
{
    let place = usize::from(place);
    if place < list.len() { list[place] } else { 0 }
}

/// Returns the ancestor of `vertex` that `steps` steps from child to parent lead to.
pub fn after_steps(parents: &[u16], vertex: u16, steps: u16) -> u16
    ensures { result ≡ up (slice_index parents.now) steps vertex }
{
    let mut v = vertex;
    for _ in 0..steps {
        v = entry(parents, v);
    }
    v
}

/// Says whether `parents` and `depths`, with an entry for each vertex, are those of a rooted forest of `graph`; only a
/// yes is promised. Each vertex has depth 0, or an edge joins it to its parent, which is one step less deep.
#[tactic(auto, using(crate::proofs::TieLemmas::forest_by_places, crate::proofs::TieLemmas::placed_past))]
pub fn is_forest(graph: &Graph, parents: &[u16], depths: &[u16]) -> bool
    ensures { IsTrue result → IsForestOf graph.now parents.now depths.now }
{
    if depths.len() != usize::from(graph.n()) {
        return false;
    }
    for v in 0..graph.n() {
        let depth = entry(depths, v);
        if depth == 0 {
            continue;
        }
        let parent = entry(parents, v);
        if !graph.has(VertexId(v), VertexId(parent)) || depth - 1 != entry(depths, parent) {
            return false;
        }
    }
    true
}

/// A rooted forest of a graph, by tables of parents and depths.
#[derive(Clone, Copy)]
pub struct RootedForest<'a> {
    /// The graph.
    pub graph: &'a Graph,
    /// For each vertex its parent.
    pub parents: &'a [u16],
    /// For each vertex how many steps it is below its root.
    pub depths: &'a [u16],
    ghost rooted: { IsForestOf graph.now parents.now depths.now },
}

impl<'a> RootedForest<'a> {
    // Says whether the path from `vertex` down to the lower end of `edge`, then along it, begins with the edge from
    // `vertex` to `end`. Only a yes is promised.
    #[tactic(auto, using(crate::proofs::TieLemmas::branch_at))]
    fn begins_with(&self, vertex: u16, end: u16, edge: ReturnEdge) -> bool
        ensures { IsTrue result → IsAbove (slice_index self.now.parents.now) (slice_index self.now.depths.now) vertex edge.from × IsBranch (slice_index self.now.parents.now) (slice_index self.now.depths.now) vertex end edge.from edge.to }
    {
        if edge.from == vertex {
            return edge.to == end;
        }
        let low = entry(self.depths, edge.from);
        let high = entry(self.depths, vertex);
        if low <= high || entry(self.parents, end) != vertex {
            return false;
        }
        after_steps(self.parents, edge.from, low - high - 1) == end
    }

    /// Says whether `edge` returns from `vertex` by the vertex's edge to `end`; only a yes is promised. The way up from
    /// `vertex` leads to the upper end of `edge`, and the way down to its lower end begins with that edge to `end`.
    pub(crate) fn returns_by(&self, vertex: u16, end: u16, edge: ReturnEdge) -> bool
        ensures { IsTrue result → ReturnsBy self.now.graph.now self.now.parents.now self.now.depths.now vertex end edge.from edge.to }
    {
        let low = entry(self.depths, vertex);
        let high = entry(self.depths, edge.to);
        self.graph.has(VertexId(edge.from), VertexId(edge.to))
            && high < low
            && after_steps(self.parents, vertex, low - high) == edge.to
            && entry(self.parents, vertex) != end
            && self.begins_with(vertex, end, edge)
    }
}
