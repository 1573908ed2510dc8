//! Kuratowski witnesses: a subdivision of K5 or K3,3 by its branches and paths, and which branches each path joins.
ghost use Rattle.std.specs.Prelude.{◌≡◌, ◌<◌, length};
ghost use Rattle.kuratowski.specs.Witnesses.{branch_count as branches_of, pairs_of, pair_at as pair_of};

use map_lists::{PathList, VertexList};

/// The graph that a witness subdivides: K5 or K3,3.
#[derive(Clone, Copy, PartialEq, Eq)]
pub enum Kind {
    /// Five vertices, each two joined.
    K5,
    /// Two parts of three vertices, each joined to those of the other part.
    K33,
}

impl Kind {
    /// Returns the number of branches: 5 or 6.
    pub fn branch_count(self) -> usize
        ensures { result ≡ branches_of self }
    {
        match self {
            Kind::K5 => 5,
            Kind::K33 => 6,
        }
    }

    /// Returns the number of paths: 10 or 9.
    pub fn path_count(self) -> usize
        ensures { result ≡ length (pairs_of self) }
    {
        match self {
            Kind::K5 => 10,
            Kind::K33 => 9,
        }
    }

    /// Returns the indices of the two branches that path number `p`, counted from 0, joins.
    // Inlined into a loop over `p` it makes the kit's clang crash.
    #[inline(never)]
    pub fn pair_at(self, p: usize) -> (usize, usize)
        requires { p < length (pairs_of self) }
        ensures pair { result ≡ pair_of self p }
        ensures first { result.0 < branches_of self }
        ensures second { result.1 < branches_of self }
    {
        match self {
            Kind::K5 => {
                if p < 4 {
                    (0, p + 1)
                } else if p < 7 {
                    (1, p - 2)
                } else if p < 9 {
                    (2, p - 4)
                } else {
                    (3, 4)
                }
            }
            Kind::K33 => (p / 3, 3 + p % 3),
        }
    }
}

/// A subdivision of K5 or K3,3 in a graph.
///
/// For K5 the ten paths join the branches (1,2), (1,3), (1,4), (1,5), (2,3), (2,4), (2,5), (3,4), (3,5), (4,5),
/// counted from 1. For K3,3 the nine paths join (1,4), (1,5), (1,6), (2,4), (2,5), (2,6), (3,4), (3,5), (3,6).
#[derive(Drop)]
pub struct Witness {
    /// Which graph.
    pub kind: Kind,
    /// The vertices at which paths meet.
    pub branch: VertexList,
    /// The paths between them, each with both its ends.
    pub paths: PathList,
}
