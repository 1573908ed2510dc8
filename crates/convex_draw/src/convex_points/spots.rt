//! Spots: coordinates by counts of faces, each kept as a difference from another vertex, while steps cover vertices.
//!
//! A vertex of the contour names the one before it, and keeps how far coordinate one falls and coordinate two rises
//! from there. A covered vertex names an end of the interval or the first vertex over it, and keeps how far it stands
//! above that in both. So a step changes only the spots of its interval and of its new vertices.

ghost use Rattle.std.specs.Prelude.{◌≡◌, ◌<◌, ◌≤◌, ◌+◌, ◌==◌, ◌&&◌, nat_lt, if◌then◌else◌, ℕ, List, length, slice_index, All, AllPairs, ◌≢◌};
ghost use Rattle.contour_runs.specs.FaceRuns.{Step, stage_after, faces_made};
ghost use Rattle.convex_counts.specs.Counts.{face_counts};
ghost use Rattle.convex_draw.specs.Spots.{Setting, IsRowOver, IsPut, IsRowSettled, IsWritten, settled, AreLinked, AreKept, spot_of};
ghost use Rattle.convex_draw.specs.Runs.{IsCountRun};

use convex_laws::convex_rows::ConvexRows;

/// The position of a vertex relative to another: two differences, and the vertex from which they are.
#[derive(Clone, Copy)]
pub(crate) struct Spot {
    pub(crate) one: u32,
    pub(crate) two: u32,
    pub(crate) over: u16,
}

// Returns how far coordinate one falls along `row`, an interval of the contour, by its vertices' entries in `spots`.
fn total_fall(spots: &[Spot], row: &[u16]) -> u32
    requires over { (z : Setting) × IsRowOver z spots.now row.now }
    ensures { (z : Setting) → IsRowOver z spots.now row.now → result + z.at.one (z.stage.vertex z.step.last) ≡ z.at.one (z.stage.vertex z.step.first) }
{
    let mut fall = 0;
    for j in 1..row.len() {
        fall += spots[row[j] as usize].one;
    }
    fall
}

// The vertices that a covered vertex may refer to, and the number of new faces over the interval. These are its first
// vertex `p`, its last one `q` and the first new vertex `z`.
#[derive(Clone, Copy)]
struct Cover {
    p: u16,
    q: u16,
    z: u16,
    faces: u16,
}

impl Cover {
    // Returns the spot (relative position) of a covered vertex, with coordinate one `fall` above that of the interval's
    // last vertex, and two `rise` above that of the first. `gain` of the new faces count for coordinate two.
    fn spot(&self, gain: u16, fall: u32, rise: u32) -> Spot
        requires gain { gain ≤ self.now.faces }
        requires small { (fall < 1048576) × (rise < 1048576) }
        ensures { result ≡ settled self.now.faces gain fall rise self.now.p self.now.z self.now.q }
    {
        if gain == 0 {
            Spot {
                one: 0,
                two: rise,
                over: self.p,
            }
        } else if gain == self.faces {
            Spot {
                one: fall,
                two: 0,
                over: self.q,
            }
        } else {
            Spot {
                one: fall + (self.faces - gain) as u32,
                two: rise + gain as u32,
                over: self.z,
            }
        }
    }
}

// Returns `face` plus one where `test` holds, else `face`.
fn more_if(test: bool, face: u16) -> u16
    requires { face < 65535 }
    ensures { result ≡ (if test then face + 1 else face) }
{
    if test { face + 1 } else { face }
}

// Returns how many new faces turn before a vertex, at their first contour edge that does not go left, or else at their
// last. `face` is the index of the face over the edge to that vertex. `left` says whether that edge goes left, `at_cut`
// whether it is the face's last; `gain` is the number at the vertex before.
fn gain_at(at_cut: bool, left: bool, face: u16, gain: u16) -> u16
    requires { face < 65535 }
    ensures { result ≡ (if at_cut then face + 1 else (if left then gain else face + 1)) }
{
    if at_cut {
        face + 1
    } else if left {
        gain
    } else {
        face + 1
    }
}

// Says whether the contour edge to the vertex with `spot` goes left: only coordinate two changes along it.
fn is_left(spot: Spot) -> bool
    ensures { result ≡ (spot.one == 0) && nat_lt 0 spot.two }
{
    spot.one == 0 && 0 < spot.two
}

// An interval of the contour that a step covers, and the positions in it at which its faces end.
#[derive(Clone, Copy)]
struct CoveredRow<'a> {
    row: &'a [u16],
    cuts: &'a [u16],
}

impl CoveredRow<'_> {
    // Rewrites the entries of `spots` of the vertices strictly within the interval: they refer to its ends or to the
    // first new vertex, `z`. Coordinate one falls by `fall` along it. Returns how far coordinate two rises up to the
    // last of them.
    #[inline(always)]
    fn settle(&self, spots: &mut [Spot], z: u16, fall: u32) -> u32
        requires put { (w : Setting) × (news : List ℕ) × IsPut w spots.old self.now.row.now self.now.cuts.now news × (w.name w.stage.count ≡ z) × (fall + w.at.one (w.stage.vertex w.step.last) ≡ w.at.one (w.stage.vertex w.step.first)) }
        ensures { (w : Setting) (news : List ℕ) → IsPut w spots.old self.now.row.now self.now.cuts.now news → w.name w.stage.count ≡ z → fall + w.at.one (w.stage.vertex w.step.last) ≡ w.at.one (w.stage.vertex w.step.first)
            → IsRowSettled w result spots.old spots.new }
    {
        let CoveredRow { row, cuts } = *self;
        let (p, q) = (row[0], row[row.len() - 1]);
        let faces = (cuts.len() - 1) as u16;
        let cover = Cover { p, q, z, faces };
        let mut far = fall;
        let mut rise = 0;
        let mut face = 0;
        let mut gain = 0;
        for j in 1..row.len() - 1 {
            let u = row[j] as usize;
            let old = spots[u];
            let at_cut = j == cuts[face as usize + 1] as usize;
            far -= old.one;
            rise += old.two;
            gain = gain_at(at_cut, is_left(old), face, gain);
            face = more_if(at_cut, face);
            spots[u] = cover.spot(gain, far, rise);
        }
        rise
    }
}

// Sets the entry in `spots` of each vertex of `news` but the first: it refers to the one before it, with differences 0.
fn link(spots: &mut [Spot], news: &[u16])
    requires some { 0 < length news.now }
    requires within { All (λ u. u < length spots.old) news.now }
    requires distinct { AllPairs ◌≢◌ news.now }
    ensures { AreLinked news.now (length news.now) spots.old spots.new }
{
    for j in 1..news.len() {
        spots[news[j] as usize] = Spot {
            one: 0,
            two: 0,
            over: news[j - 1],
        };
    }
}

// Adds the vertices `news` over `row`, a contour interval whose new faces end at the indices `cuts`. Writes the entries
// of `spots` of the new vertices and of those of `row` but its first.
fn put_over(spots: &mut [Spot], row: &[u16], cuts: &[u16], news: &[u16])
    requires put { (w : Setting) × IsPut w spots.old row.now cuts.now news.now }
    ensures { (w : Setting) → IsPut w spots.old row.now cuts.now news.now → IsWritten w spots.old spots.new }
{
    let (p, q) = (row[0], row[row.len() - 1]);
    let (z, y) = (news[0], news[news.len() - 1]);
    let faces = (cuts.len() - 1) as u32;
    let fall = total_fall(spots, row);
    let rise = CoveredRow { row, cuts }.settle(spots, z, fall) + spots[q as usize].two;
    link(spots, news);
    spots[z as usize] = Spot {
        one: fall + faces,
        two: 0,
        over: p,
    };
    spots[q as usize] = Spot {
        one: 0,
        two: rise + faces,
        over: y,
    };
}

// Writes each vertex's entry in `spots`, by `rows` over the base from `s` to `d`. Returns the last contour's length.
pub(crate) fn put_all(spots: &mut [Spot], rows: &ConvexRows, d: u16, s: u16) -> usize
    requires run { (steps : ℕ → Step) × (name : ℕ → ℕ) × IsCountRun steps name rows.now (length spots.old) × (name 0 ≡ d) × (name 1 ≡ s) }
    ensures { (steps : ℕ → Step) (name : ℕ → ℕ) → IsCountRun steps name rows.now (length spots.old) → name 0 ≡ d → name 1 ≡ s → AreKept steps name (length rows.now.rows) result spots.new }
{
    spots[s as usize] = Spot {
        one: 0,
        two: 0,
        over: d,
    };
    let mut width = 2;
    for j in (0..rows.rows.len()).rev() {
        let (row, news) = (rows.rows.list(j), rows.news.list(j));
        put_over(spots, row, rows.cuts.list(j), news);
        width = width + news.len() + 2 - row.len();
    }
    width
}
