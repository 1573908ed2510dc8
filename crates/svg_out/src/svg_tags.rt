//! SVG tags and lines: a picture's opening and closing, segments, dots, rectangles, and scale from figure to picture.
ghost use Rattle.std.specs.Prelude.{◌≡◌, ◌++◌, ◌∷◌, ℤ, pos, ◌+ℤ◌, ◌-ℤ◌, ◌*ℤ◌, OnOk};
ghost use Rattle.std.specs.Fmt.{signed_decimal};
ghost use Rattle.svg_out.specs.Svg.{across as far_right, down as far_down, attribute, extent as the_extent, sides, segment, front as the_front, opening, closing, dot};

use itoa::Buffer;
use pg_plane::Point;
use std::alloc::AllocError;

// Appends `number` in decimal to `out`.
fn push_number(out: &mut Vec<u8>, number: i64) -> Result<(), AllocError>
    ensures { OnOk result (out.new.items ≡ out.old.items ++ signed_decimal number) }
{
    let mut buffer = Buffer::new();
    out.extend_from_slice(buffer.format(number).as_bytes())
}

// Appends the SVG attribute `name` with the value `number` to `out`, after a space.
fn push_attribute(out: &mut Vec<u8>, name: &[u8], number: i64) -> Result<(), AllocError>
    ensures { OnOk result (out.new.items ≡ out.old.items ++ attribute name.now number) }
{
    out.push(b' ')?;
    out.extend_from_slice(name)?;
    out.extend_from_slice(b"=\"")?;
    push_number(out, number)?;
    out.push(b'"')?;
    Ok(())
}

/// Converts the coordinate `x` of a figure to that of the picture, ten times as large.
pub(crate) fn across(x: i32) -> i64
    ensures { result ≡ far_right x }
{
    10 * i64::from(x)
}

/// Converts the coordinate `y` of a figure that is `height` high to that of the picture, ten times as large, downwards.
pub(crate) fn down(height: i32, y: i32) -> i64
    ensures { result ≡ far_down height y }
{
    10 * (i64::from(height) - i64::from(y))
}

/// Returns the signed length in the picture from the coordinate `p` of a figure to `q`: ten times `q - p`.
pub(crate) fn extent(p: i32, q: i32) -> i64
    ensures { result ≡ the_extent p q }
{
    10 * (i64::from(q) - i64::from(p))
}

/// A position in the picture.
#[derive(Clone, Copy, PartialEq, Eq)]
pub(crate) struct Spot {
    /// How far right it lies.
    pub(crate) x: i64,
    /// How far down it lies.
    pub(crate) y: i64,
}

/// Appends the position and size of a rectangle to `out`, as SVG attributes, by its upper left `corner`.
pub(crate) fn push_sides(
    out: &mut Vec<u8>,
    corner: Spot,
    width: i64,
    height: i64,
) -> Result<(), AllocError>
    ensures { OnOk result (out.new.items ≡ out.old.items ++ sides corner.x corner.y width height) }
{
    push_attribute(out, b"x", corner.x)?;
    push_attribute(out, b"y", corner.y)?;
    push_attribute(out, b"width", width)?;
    push_attribute(out, b"height", height)
}

/// Appends the SVG tag of the segment from `from` to `to` to `out`, with the attributes `more` after the others.
pub(crate) fn push_segment(
    out: &mut Vec<u8>,
    from: Spot,
    to: Spot,
    more: &[u8],
) -> Result<(), AllocError>
    ensures { OnOk result (out.new.items ≡ out.old.items ++ segment from.x from.y to.x to.y more.now) }
{
    out.extend_from_slice(b"<line")?;
    push_attribute(out, b"x1", from.x)?;
    push_attribute(out, b"y1", from.y)?;
    push_attribute(out, b"x2", to.x)?;
    push_attribute(out, b"y2", to.y)?;
    out.extend_from_slice(b" stroke=\"black\"")?;
    out.extend_from_slice(more)?;
    out.extend_from_slice(b"/>\n")?;
    Ok(())
}

/// Appends the SVG dot of the vertex at `point` to `out`. The drawing is `height` high, and y goes down in its picture.
pub(crate) fn push_dot(out: &mut Vec<u8>, height: i32, point: Point) -> Result<(), AllocError>
    ensures { OnOk result (out.new.items ≡ out.old.items ++ dot height point) }
{
    out.extend_from_slice(b"<circle")?;
    push_attribute(out, b"cx", across(point.x))?;
    push_attribute(out, b"cy", down(height, point.y))?;
    out.extend_from_slice(b" r=\"3\"/>\n")?;
    Ok(())
}

// Returns the size of the picture, with its margin of 10 on both sides, of a figure that is `size` long in that
// direction.
fn with_margin(size: i32) -> i64
    ensures { result ≡ pos 10 *ℤ size +ℤ pos 20 }
{
    10 * i64::from(size) + 20
}

// Returns the bytes with which each picture begins.
fn front() -> &'static [u8]
    ensures { result.now ≡ the_front }
{
    b"<svg xmlns=\"http://www.w3.org/2000/svg\" viewBox=\"-10 -10 "
}

/// Appends the opening tag of the picture of a figure to `out`. The figure is `width` wide and `height` high.
pub(crate) fn push_opening(out: &mut Vec<u8>, width: i32, height: i32) -> Result<(), AllocError>
    ensures { OnOk result (out.new.items ≡ out.old.items ++ opening width height) }
{
    out.extend_from_slice(front())?;
    push_number(out, with_margin(width))?;
    out.push(b' ')?;
    push_number(out, with_margin(height))?;
    out.extend_from_slice(b"\">\n")?;
    Ok(())
}

/// Appends the last line of a picture to `out`.
pub(crate) fn push_closing(out: &mut Vec<u8>) -> Result<(), AllocError>
    ensures { OnOk result (out.new.items ≡ out.old.items ++ closing) }
{
    out.extend_from_slice(b"</svg>\n")
}
