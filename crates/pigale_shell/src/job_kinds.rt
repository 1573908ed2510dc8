//! The jobs sorted by what they read: maps, graphs, figures or nothing.

use super::map_jobs::MapJob;
use pigale_words::Form;

/// A job by what it reads.
#[derive(Clone, Copy, PartialEq, Eq)]
pub enum JobKind {
    /// Maps, as planar_code; it writes in a form.
    Maps(MapJob, Form),
    /// Bare graphs; it writes in a form.
    Graphs(Form),
    /// Figures.
    Figures,
    /// Nothing: it makes a map, by its number of vertices and the seed.
    Made(u16, u32),
}
