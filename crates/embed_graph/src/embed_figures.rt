//! The answer of the job `embed` to a graph, as a value: a map of it with a drawing, or a Kuratowski witness.

mod embedder;

pub use embedder::{EmbedFigure, Embedder};
