//! The check of a Kuratowski witness against a graph, and its verdict.
ghost use Rattle.std.specs.Prelude.{◌≡◌, ◌↔◌, IsTrue};
ghost use Rattle.kuratowski.specs.Witnesses.{IsShape, IsWitness};
ghost use Rattle.kuratowski.specs.Verdicts.{IsVerdict, NoBadBranch};

use crate::Witness;
use crate::branches::bad_branch;
use crate::inner_vertices::shared;
use crate::path_edges::missing_edge;
use crate::shape::has_shape;
use graphs::Graph;
use map_lists::VertexId;

/// The verdict on a witness: yes, or the first fault of the first kind it has. Positions and paths are counted from 1.
#[derive(Clone, Copy, PartialEq, Eq)]
pub enum WitnessVerdict {
    /// There are not as many branches and paths as the kind has, or a path does not join its pair.
    BadShape,
    /// This branch is no vertex, or an earlier branch.
    BadBranch(usize),
    /// In this path, no edge joins the vertices at this index and the next.
    NotEdge(usize, usize),
    /// This vertex is inner in the first path, and inner in the second too; where the two are one path,
    /// it is a branch, or stands twice in it.
    Shared(usize, usize, VertexId),
    /// It is a witness.
    Yes,
}

impl WitnessVerdict {
    /// Says whether it is a witness.
    pub fn is_yes(self) -> bool
        ensures { IsTrue result ↔ (self ≡ WitnessVerdict.Yes) }
    {
        match self {
            WitnessVerdict::Yes => true,
            _ => false,
        }
    }
}

/// Returns the verdict on `witness` for `graph`: `Yes`, or its first fault. It takes no memory.
pub fn check_witness(graph: &Graph, witness: &Witness) -> WitnessVerdict
    ensures verdict { IsVerdict graph.now witness.now.kind witness.now.branch witness.now.paths result }
    ensures yes { (result ≡ WitnessVerdict.Yes) ↔ IsWitness graph.now witness.now.kind witness.now.branch witness.now.paths }
{
    if !has_shape(witness.kind, &witness.branch, &witness.paths) {
        return WitnessVerdict::BadShape;
    }
    match bad_branch(graph.n(), &witness.branch) {
        Some(i) => WitnessVerdict::BadBranch(i + 1),
        None => path_verdict(graph, witness),
    }
}

// Returns the verdict on `witness` for `graph` by its paths: its shape and its branches must be right.
fn path_verdict(graph: &Graph, witness: &Witness) -> WitnessVerdict
    requires shape { IsShape witness.now.kind witness.now.branch witness.now.paths }
    requires branches { NoBadBranch graph.now.n witness.now.branch }
    ensures { IsVerdict graph.now witness.now.kind witness.now.branch witness.now.paths result }
{
    if let Some((p, i)) = missing_edge(graph, &witness.paths) {
        return WitnessVerdict::NotEdge(p + 1, i + 1);
    }
    match shared(&witness.branch, &witness.paths) {
        Some(s) => WitnessVerdict::Shared(s.first + 1, s.second + 1, VertexId(s.vertex)),
        None => WitnessVerdict::Yes,
    }
}
