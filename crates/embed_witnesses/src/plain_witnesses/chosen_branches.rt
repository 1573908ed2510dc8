//! Builds a witness from chosen branch vertices, with single edges as its paths.
ghost use Rattle.std.specs.Prelude.{◌≡◌, ◌<◌, ◌++◌, ◌∷◌, [], length, IfOk, OnOk, MatchOption};
ghost use Rattle.kuratowski.specs.Witnesses.{pairs_of, IsWitness};
ghost use Rattle.embed_witnesses.specs.Plain.{plain_branch as branches_of, plain_path as path_of, plain_paths as paths_of};

use crate::plain_witnesses::branch_pairs::chosen_at;
use graphs::Graph;
use kuratowski::{Kind, Witness, check_witness};
use map_lists::{PathList, VertexId, VertexList};
use std::alloc::{AllocError, Global};

/// Returns the branches `chosen` with the edges between them as a witness, or None where it is not one of `graph`. It
/// fails only when out of memory.
pub(crate) fn as_witness(
    alloc: Global,
    graph: &Graph,
    kind: Kind,
    chosen: &[u16],
) -> Result<Option<Witness>, AllocError>
    ensures { IfOk result (λ found. MatchOption found (¬ IsWitness graph.now kind (branches_of kind chosen.now) (paths_of kind chosen.now)) (λ w. IsWitness graph.now w.kind w.branch w.paths)) }
{
    let mut branch = VertexList::new(alloc);
    for i in 0..kind.branch_count() {
        branch.push(VertexId(chosen_at(chosen, i)))?;
    }
    let mut paths = PathList::new(alloc);
    for p in 0..kind.path_count() {
        push_path(&mut paths, kind, chosen, p)?;
    }
    let witness = Witness {
        kind,
        branch,
        paths,
    };
    if check_witness(graph, &witness).is_yes() {
        Ok(Some(witness))
    } else {
        Ok(None)
    }
}

// Appends to `paths` path number `p` of `kind`: the edge between the vertices `chosen` for its two branches.
fn push_path(paths: &mut PathList, kind: Kind, chosen: &[u16], p: usize) -> Result<(), AllocError>
    requires { p < length (pairs_of kind) }
    ensures { OnOk result (paths.new ≡ paths.old ++ path_of kind chosen.now p ∷ []) }
{
    let (a, b) = kind.pair_at(p);
    let path = [
        VertexId(chosen_at(chosen, a)),
        VertexId(chosen_at(chosen, b)),
    ];
    paths.push(&path)
}
