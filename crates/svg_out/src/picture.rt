//! The public call `svg`: a figure of any kind as SVG.
ghost use Rattle.std.specs.Prelude.{◌≡◌, ◌++◌, List, ℕ, OnOk, OnErr};
ghost use Rattle.svg_out.specs.Svg.{IsSvg, IsDrawn};

use crate::{svg_bars, svg_grid, svg_rects, svg_witness};
use figure_text::Figure;
use std::alloc::{AllocError, Global};

/// Appends `figure` as SVG to `out`. Its lists are a simple map, and its drawing has an entry for each vertex, and bars
/// a column for each edge. A witness, with the branches and paths of its kind and no empty path, becomes a comment with
/// its text as figure `number`; else `number` is not used. When memory runs out `out` is unchanged.
pub fn svg(alloc: Global, number: u32, figure: &Figure, out: &mut Vec<u8>) -> Result<(), AllocError>
    requires { IsDrawn figure.now }
    ensures ok { OnOk result ((svg : List ℕ) × IsSvg number figure.now svg × (out.new.items ≡ out.old.items ++ svg)) }
    ensures err { OnErr result (out.new.items ≡ out.old.items) }
{
    match figure {
        Figure::Grid { lists, points, .. } => svg_grid(alloc, lists, points, out),
        Figure::Bars { lists, bars } => svg_bars(alloc, lists, bars, out),
        Figure::Rects { lists, rects } => svg_rects(alloc, lists, rects, out),
        Figure::Witness { graph, witness } => svg_witness(alloc, number, graph, witness, out),
    }
}
