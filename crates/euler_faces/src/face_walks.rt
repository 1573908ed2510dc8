//! The faces of a map as the type `Faces`: the walk of each face, and the face of each dart.
ghost use Rattle.std.specs.Prelude.{◌≡◌, ◌<◌, ℕ, [], ◌∷◌, ◌++◌, length, All, Contains, OnOk};
ghost use Rattle.euler_faces.specs.FaceWalks.{ids_of, walk_at};

use half_edges::{DartId, FaceId};
use smallvec::SmallVec;
use std::alloc::{AllocError, Global};
use std::marker::Model;

// Darts in the order of a walk, at most four with no memory of their own. Contracts see the numbers of their ids.
#[derive(Drop)]
pub(crate) struct Walk {
    darts: SmallVec<DartId, 4>,
}

impl Model for Walk {
    ghost use Rattle.std.specs.Prelude.{ℕ, List};
    ghost use Rattle.euler_faces.specs.FaceWalks.{ids_of};

    ghost Value = { List ℕ };

    ghost view = { λ w. ids_of w.darts.items };
}

impl Walk {
    // Returns a walk of no darts. It takes no memory.
    pub(crate) fn new(alloc: Global) -> Walk
        ensures { result ≡ [] }
    {
        Walk {
            darts: SmallVec::new(alloc),
        }
    }

    // Appends dart `d`.
    pub(crate) fn push(&mut self, d: DartId) -> Result<(), AllocError>
        ensures { OnOk result (self.new ≡ self.old ++ d.0 ∷ []) }
    {
        self.darts.push(d)?;
        Ok(())
    }

    // Returns the darts in the order of the walk.
    pub(crate) fn as_slice(&self) -> &[DartId]
        ensures { ids_of result.now ≡ self.now }
    {
        self.darts.as_slice()
    }
}

/// The faces of a map: the orbits of the face step, each as a walk along it.
///
/// Contracts see the walks as lists of the numbers of ids. An isolated vertex has no dart, so its face has no walk. A
/// face keeps its id as long as the `Faces` lives, and an edit of the map leaves the walks as they were.
#[derive(Drop)]
pub struct Faces {
    pub(crate) walks: Vec<Walk>,
    // for each id of a dart the number of its face
    pub(crate) of: Vec<u32>,
}

impl Model for Faces {
    ghost use Rattle.std.specs.Prelude.{ℕ, List};
    ghost use Rattle.euler_faces.specs.FaceWalks.{AreNumbered};

    ghost Value = { List (List ℕ) };

    ghost view = { λ faces. faces.walks.items };

    ghost invariant = { λ faces. AreNumbered faces.walks.items faces.of.items };
}

impl Faces {
    /// Returns the number of walks. Faces have the ids with the numbers below it.
    pub fn count(&self) -> u32
        ensures { result ≡ length self.now }
    {
        self.walks.len() as u32
    }

    /// Returns the face of dart `d`, which was live in the map.
    pub fn of_dart(&self, d: DartId) -> FaceId
        requires { (f : ℕ) × (f < length self.now) × Contains (walk_at self.now f) d.0 }
        ensures face { result.0 < length self.now }
        ensures stands { Contains (walk_at self.now result.0) d.0 }
    {
        FaceId(self.of[d.0 as usize])
    }

    /// Returns the darts of face `f` in the order of the face step, from the first in the order of the lists.
    pub fn walk(&self, f: FaceId) -> &[DartId]
        requires { f.0 < length self.now }
        ensures walk { ids_of result.now ≡ walk_at self.now f.0 }
        ensures stands { All (λ d. Contains (walk_at self.now f.0) d.0) result.now }
    {
        self.walks[f.0 as usize].as_slice()
    }
}
