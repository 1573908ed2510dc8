//! Maps and drawings of graphs, one after another, by `Embedder`, which keeps memory from one to the next.
ghost use Rattle.std.specs.Prelude.{◌≡◌, ◌≤◌, length, IfOk, IfSome};
ghost use Rattle.embed_theorem.specs.Expanded.{IsMapOf};
ghost use Rattle.embed_graph.specs.Figures.{IsEmbedFigure};

use crate::edge_test::EdgeTest;
use crate::fast_embeddings::{Tested, found_witness, refuted, test_graph};
use embed_search::Tables;
use graphs::Graph;
use grid_figures::Drawer;
use kuratowski::Witness;
use map_lists::Rotations;
use pg_plane::GridFigure;
use refusals::Unserved;
use std::alloc::{AllocError, Global};

/// The answer of the job `embed` to a graph.
#[derive(Drop)]
pub enum EmbedFigure {
    /// A map of genus zero with exactly the edges of the graph, and its drawing by Schnyder's coordinates.
    Drawn(Rotations, GridFigure),
    /// A subdivision of K5 or K3,3 in the graph.
    NotPlanar(Witness),
}

/// Embeds and draws graphs, one after another, and keeps its memory for the next. No answer depends on what it holds.
#[derive(Drop)]
pub struct Embedder {
    alloc: Global,
    tables: Tables,
    drawer: Drawer,
    edges: EdgeTest,
}

impl Embedder {
    /// Returns an embedder that has embedded nothing yet. It takes no memory.
    pub fn new(alloc: Global) -> Embedder {
        Embedder {
            alloc,
            tables: Tables::new(alloc),
            drawer: Drawer::new(alloc),
            edges: EdgeTest::new(alloc),
        }
    }

    // Returns `map`, a map of `graph`, which has at least three vertices, with its drawing by Schnyder's coordinates.
    fn drawn_map(&mut self, graph: &Graph, map: Rotations) -> Result<EmbedFigure, AllocError>
        requires some { 3 ≤ graph.now.n }
        requires map { IsMapOf map graph.now }
        ensures { IfOk result (IsEmbedFigure graph.now) }
    {
        refusals::no_refusal_is_plane();
        let _n = graph.n();
        match self.drawer.schnyder_figure(&map) {
            Ok(figure) => Ok(EmbedFigure::Drawn(map, figure)),
            Err(Unserved::NoMemory) => Err(AllocError),
            // such a map breaks no condition
            Err(Unserved::Refused(_)) => unreachable!(),
        }
    }

    // Returns the drawn map or witness that the fast searches find for `graph`, of at least three vertices, if it
    // passes the checks. None promises nothing. Lists with the graph's edges are drawn as a map of genus zero.
    fn found_figure(&mut self, graph: &Graph) -> Result<Option<EmbedFigure>, AllocError>
        requires { 3 ≤ graph.now.n }
        ensures { IfOk result (λ found. IfSome found (IsEmbedFigure graph.now)) }
    {
        refusals::no_refusal_is_plane();
        let _n = graph.n();
        let Some(lists) = self.tables.found_lists(self.alloc, graph)? else {
            return match found_witness(self.alloc, &mut self.tables, graph)? {
                Some(witness) => Ok(Some(EmbedFigure::NotPlanar(witness))),
                None => Ok(None),
            };
        };
        match self.drawer.schnyder_figure(&lists) {
            Ok(figure) => {
                if self.edges.has_edges(graph, &lists)? {
                    Ok(Some(EmbedFigure::Drawn(lists, figure)))
                } else {
                    Ok(None)
                }
            }
            Err(Unserved::NoMemory) => Err(AllocError),
            Err(Unserved::Refused(_)) => Ok(None),
        }
    }

    /// Returns a map of `graph`, which has at least three vertices, with its drawing in the grid n - 2 by n - 2, or
    /// else a witness. It fails only when out of memory; the embedder can then be used again.
    pub fn figure(&mut self, graph: &Graph) -> Result<EmbedFigure, AllocError>
        requires { 3 ≤ graph.now.n }
        ensures { IfOk result (IsEmbedFigure graph.now) }
    {
        match self.found_figure(graph)? {
            Some(figure) => Ok(figure),
            // no graph is known for which this comes; the test's no is right
            None => match test_graph(self.alloc, &mut self.tables, graph)? {
                Tested::Map(map) => self.drawn_map(graph, map),
                Tested::NoMap => {
                    let witness = refuted(self.alloc, &mut self.tables, graph)?;
                    Ok(EmbedFigure::NotPlanar(witness))
                }
            },
        }
    }

    /// Keeps the memory of `figure`, which is no longer needed, for the next one.
    pub fn keep(&mut self, figure: EmbedFigure) {
        match figure {
            EmbedFigure::Drawn(lists, drawing) => {
                self.tables.keep_lists(lists);
                self.drawer.keep_schnyder(drawing);
            }
            EmbedFigure::NotPlanar(witness) => self.tables.keep_witness(witness),
        }
    }
}
