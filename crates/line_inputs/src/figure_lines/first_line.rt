//! The first line of a figure: its kind and, for a witness, its graph.
ghost use Rattle.std.specs.Prelude.{◌≡◌, Some, IfOk};
ghost use Rattle.figure_text.specs.Lines.{TailInRange};
ghost use Rattle.line_inputs.specs.Heads.{head_kind, HasGraph};

use figure_text::{GridJob, Kind, front_graph};
use graphs::Graph;
use kuratowski::Kind as Subdivided;
use std::alloc::{AllocError, Global};

/// The words of the first line of a figure, without its numbers.
#[derive(Drop)]
pub enum Head {
    /// A straight-line drawing, made so.
    Grid(GridJob),
    /// A visibility drawing.
    Bars,
    /// A rectangular dual.
    Rects,
    /// A subdivision of this graph, in that one.
    Witness(Subdivided, Graph),
}

impl Head {
    /// Returns the kind of the figure.
    pub fn kind(&self) -> Kind
        ensures { result ≡ head_kind self.now }
    {
        match self {
            Head::Grid(job) => Kind::Grid(*job),
            Head::Bars => Kind::Bars,
            Head::Rects => Kind::Rects,
            Head::Witness(kind, _) => Kind::Witness(*kind),
        }
    }
}

/// Returns the head of a figure of this `kind`, for a witness with the graph that its first `line` holds. The number or
/// graph at the end of `line`, given without its byte 10, is known to be in range. It fails only when out of memory.
pub fn head_of(alloc: Global, kind: Kind, line: &[u8]) -> Result<Head, AllocError>
    requires { TailInRange (Some kind) line.now }
    ensures kind { IfOk result (λ head. head_kind head ≡ kind) }
    ensures graph { IfOk result (λ head. HasGraph head line.now) }
{
    match kind {
        Kind::Grid(job) => Ok(Head::Grid(job)),
        Kind::Bars => Ok(Head::Bars),
        Kind::Rects => Ok(Head::Rects),
        Kind::Witness(subdivided) => {
            let graph = front_graph(alloc, line)?;
            Ok(Head::Witness(subdivided, graph))
        }
    }
}
