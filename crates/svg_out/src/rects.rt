//! Rectangular duals as SVG: a rectangle for each vertex.
ghost use Rattle.std.specs.Prelude.{◌≡◌, ◌<◌, ℕ, ◌++◌, length, OnOk, OnErr, IfOk};
ghost use Rattle.figure_text.specs.Text.{HasRects};
ghost use Rattle.svg_out.specs.Svg.{greatest, unfilled as the_style, tiles, rects_svg};

use crate::bars::{greatest_from, integer};
use crate::svg_tags::{Spot, across, down, extent, push_closing, push_opening, push_sides};
use map_lists::Rotations;
use pg_plane::RectFigure;
use std::alloc::{AllocError, Global};

// Returns the end of a rectangle's SVG tag: its sides alone are drawn.
fn unfilled() -> &'static [u8]
    ensures { result.now ≡ the_style }
{
    b" fill=\"none\" stroke=\"black\"/>\n"
}

// Appends the `rects`, one for each of `lists`, to `out`. The drawing is `height` high; y goes down in its picture.
fn push_tiles(
    out: &mut Vec<u8>,
    lists: &Rotations,
    rects: &RectFigure,
    height: i32,
) -> Result<(), AllocError>
    requires { HasRects lists.now rects.now }
    ensures { OnOk result (out.new.items ≡ out.old.items ++ tiles rects.now height (length lists.now)) }
{
    for v in 0..lists.len() {
        let a = integer(&rects.x1, v);
        let b = integer(&rects.x2, v);
        let c = integer(&rects.y1, v);
        let d = integer(&rects.y2, v);
        let corner = Spot {
            x: across(a),
            y: down(height, d),
        };
        out.extend_from_slice(b"<rect")?;
        push_sides(out, corner, extent(a, b), extent(c, d))?;
        out.extend_from_slice(unfilled())?;
    }
    Ok(())
}

/// Appends `rects`, a rectangle for each of `lists`, to `out` as SVG. When memory runs out `out` is unchanged.
pub fn svg_rects(
    alloc: Global,
    lists: &Rotations,
    rects: &RectFigure,
    out: &mut Vec<u8>,
) -> Result<(), AllocError>
    requires { HasRects lists.now rects.now }
    ensures ok { OnOk result (out.new.items ≡ out.old.items ++ rects_svg lists.now rects.now) }
    ensures err { OnErr result (out.new.items ≡ out.old.items) }
{
    let height = greatest_from(0, &rects.y2);
    let mut text = Vec::new(alloc);
    push_opening(&mut text, greatest_from(0, &rects.x2), height)?;
    push_tiles(&mut text, lists, rects, height)?;
    push_closing(&mut text)?;
    out.extend_from_slice(&text)
}
