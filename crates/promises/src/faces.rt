//! Promised contracts of faces and the Euler count.
ghost use Rattle.std.specs.Prelude.{◌≡◌, ◌<◌, ◌-◌, IfOk, length, ℕ, Contains, All};
ghost use Rattle.classes.specs.Classes.{class_count};
ghost use Rattle.euler_faces.specs.FaceWalks.{AreFaces, walk_at, ids_of};
ghost use Rattle.map_theory.specs.Maps.{vertex_count, edge_count, face_count, component_count, genus_of, face_classes};

use euler_faces::{EulerCount, Faces};
use half_edges::HalfMap;
use map_lists::{DartId, FaceId};
use std::alloc::{AllocError, Global};

/// Counts vertices, edges, faces and components of `map`.
pub fn euler(alloc: Global, map: &HalfMap) -> Result<EulerCount, AllocError>
    ensures n { IfOk result (λ count. count.n ≡ vertex_count map.now.lists) }
    ensures m { IfOk result (λ count. count.m ≡ edge_count map.now.lists) }
    ensures f { IfOk result (λ count. count.f ≡ face_count map.now.lists) }
    ensures c { IfOk result (λ count. count.c ≡ component_count map.now.lists) }
{
    euler_faces::euler(alloc, map)
}

/// Returns the genus by the four counts of `count`.
pub fn genus(count: &EulerCount) -> u32
    ensures { result ≡ genus_of count.now.n count.now.m count.now.f count.now.c }
{
    count.genus()
}

/// Returns the faces of `map`, each as its walk.
pub fn faces(alloc: Global, map: &HalfMap) -> Result<Faces, AllocError>
    ensures walks { IfOk result (AreFaces map.now) }
    ensures count { IfOk result (λ faces. length faces ≡ class_count (face_classes map.now.lists)) }
{
    euler_faces::faces(alloc, map)
}

/// Counts the faces that have darts.
pub fn count_of_faces(faces: &Faces) -> u32
    ensures { result ≡ length faces.now }
{
    faces.count()
}

/// Returns the face of `d`.
pub fn face_of_dart(faces: &Faces, d: DartId) -> FaceId
    requires { (f : ℕ) × (f < length faces.now) × Contains (walk_at faces.now f) d.0 }
    ensures face { result.0 < length faces.now }
    ensures stands { Contains (walk_at faces.now result.0) d.0 }
{
    faces.of_dart(d)
}

/// Returns the darts of face `f` in the order of the face step.
pub fn face_walk(faces: &Faces, f: FaceId) -> &[DartId]
    requires { f.0 < length faces.now }
    ensures walk { ids_of result.now ≡ walk_at faces.now f.0 }
    ensures stands { All (λ d. Contains (walk_at faces.now f.0) d.0) result.now }
{
    faces.walk(f)
}
