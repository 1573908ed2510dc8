//! Laws: each graph is drawn or refuted by a witness, and never both.

ghost use Rattle.embed_graph.specs.Laws.{SomeEmbedFigure, DrawnExactly};

/// States the law that each graph with at least three vertices has a drawn map, or a witness that there is none.
pub fn some_embed_figure()
    ensures { SomeEmbedFigure }
{
    embed_theorem::embeddings::map_or_witness();
    grid_figures::schnyder_figures::some_schnyder_figure();
}

/// States the law that a graph with at least three vertices has a drawn map exactly where it has no witness. So no
/// graph has both.
pub fn drawn_exactly()
    ensures { DrawnExactly }
{
    embed_theorem::embeddings::planar_exactly();
    grid_figures::schnyder_figures::some_schnyder_figure();
}
