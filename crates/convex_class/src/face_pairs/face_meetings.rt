//! Where each face met a given face first, and the vertices that a second meeting of the two shows.
ghost use Rattle.std.specs.Prelude.{◌≡◌, ◌≢◌, ◌<◌, ◌≤◌, length};
ghost use Rattle.convex_class.specs.Meetings.{IsHere, IsMet};

// Where a face met another one first along that one's walk: an edge, or a vertex, which is then both of its ends.
#[derive(Clone, Copy)]
pub(crate) struct Meeting {
    // the face whose walk it is
    pub(crate) face: u32,
    // the vertex at which the edge begins
    pub(crate) tail: u16,
    // and the one at which it ends
    pub(crate) head: u16,
}

// Returns the least of `best`, `x` and `y`, where these two differ, and else `best`.
fn least_of_two(best: u16, x: u16, y: u16) -> u16
    ensures lower { result ≤ best }
    ensures two { x ≢ y → (result ≤ x) × (result ≤ y) }
{
    if x == y { best } else { best.min(x).min(y) }
}

// Notes in `met` (one entry for each face) that face `z` meets the face of `place` there, if it did not yet, and
// returns `best`. If it did, returns the least of `best` and of ends of both meetings: the tail of one and the head of
// the other, where these differ.
pub(crate) fn meet(met: &mut [Meeting], z: u32, place: Meeting, best: u16) -> u16
    requires { z < length met.old }
    ensures { IsMet place.face (IsHere place z) met.old best met.new result }
{
    let first = met[z as usize];
    if first.face != place.face {
        met[z as usize] = place;
        return best;
    }
    let behind = least_of_two(best, first.head, place.tail);
    least_of_two(behind, first.tail, place.head)
}
