//! A mark on a vertex that belongs to the current vertex `u`, and the least vertex that a repeated mark shows.
ghost use Rattle.std.specs.Prelude.{◌≡◌, ◌<◌, length};
ghost use Rattle.convex_class.specs.Stamps.{IsStamped};

// Sets `z`'s mark in `marks` to `u`. Returns the least of `best`, `u` and `z` if the mark was `u` already, else `best`.
pub(crate) fn stamp(marks: &mut [u16], u: u16, z: u16, best: u16) -> u16
    requires { z < length marks.old }
    ensures { IsStamped u (λ y. y ≡ z) marks.old best marks.new result }
{
    let again = marks[z as usize] == u;
    marks[z as usize] = u;
    if again { best.min(u).min(z) } else { best }
}
