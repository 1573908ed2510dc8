//! The generator of stacked triangulations: pseudorandom numbers, and vertex after vertex put into a face.
ghost use Rattle.std.specs.Prelude.{◌≡◌, ◌+◌, ◌<◌, ◌≤◌, ℕ, [], length, IfOk, Some};
ghost use Rattle.map_theory.specs.Maps.{IsSimpleMap, list_of};
ghost use Rattle.half_edges.specs.Map.{dart_at};
ghost use Rattle.map_gen.specs.Faces.{IsFaceOf};
ghost use Rattle.map_gen.specs.Stacked.{Face, next_number as next_number_of, chosen as chosen_of, triangle as triangle_of, stacked as stacked_lists};
ghost use Rattle.map_gen.specs.Darts.{HasDarts, IsVertexPut};

use half_edges::{Corner, DartId, HalfMap, Rotations, VertexId};
use map_lists::ItemLists;
use std::alloc::{AllocError, Global};

/// A face by its three darts, in the order of its walk.
#[derive(Clone, Copy)]
pub(crate) struct FaceDarts {
    pub(crate) a: DartId,
    pub(crate) b: DartId,
    pub(crate) c: DartId,
}

// Returns the pseudorandom number that follows `number`.
fn next_number(number: u32) -> u32
    ensures { result ≡ next_number_of number }
{
    ((number as u64 * 1103515245 + 12345) % 4294967296) as u32
}

// Returns the index, below the number `faces` of faces, that `number` chooses: its upper half modulo `faces`.
fn chosen(number: u32, faces: usize) -> usize
    requires { 0 < faces }
    ensures is { result ≡ chosen_of number faces }
    ensures below { result < faces }
{
    (number / 65536) as usize % faces
}

// Returns the lists of `n` vertices, the first three a triangle, the others isolated. Fails only when out of memory.
fn triangle(alloc: Global, n: u16) -> Result<Rotations, AllocError>
    requires some { 3 ≤ n }
    requires few { n < 4096 }
    ensures { IfOk result (λ lists. (number : ℕ) → lists ≡ (triangle_of n number).lists) }
{
    let mut lists = ItemLists::new(alloc);
    lists.push(&[1, 2])?;
    lists.push(&[2, 0])?;
    lists.push(&[0, 1])?;
    for _ in 3..n {
        lists.open()?;
    }
    Ok(Rotations::from_lists(lists))
}

// Joins the isolated vertex `k` of `map`, which has room for three edges, to the vertices of `face`. Returns the three
// faces into which that is split: those of its first, second and third dart.
fn put_vertex(map: &mut HalfMap, k: VertexId, face: FaceDarts) -> (FaceDarts, FaceDarts, FaceDarts)
    requires spare { 3 ≤ map.old.spare }
    requires vertex { k.0 < length map.old.lists }
    requires alone { list_of map.old.lists k.0 ≡ [] }
    requires face { (f : Face) × HasDarts map.old face f × IsFaceOf map.old.lists f }
    ensures put { (f : Face) → HasDarts map.old face f → IsVertexPut map.old map.new k.0 f result.0 result.1 result.2 }
    ensures spare { map.new.spare + 3 ≡ map.old.spare }
{
    let at_a = map.twin(face.c);
    let at_b = map.twin(face.a);
    let at_c = map.twin(face.b);
    let from_a = map.add_edge(Corner::After(at_a), Corner::Only(k));
    let to_a = map.twin(from_a);
    let from_c = map.add_edge(Corner::After(at_c), Corner::After(to_a));
    let to_c = map.twin(from_c);
    let from_b = map.add_edge(Corner::After(at_b), Corner::After(to_c));
    let to_b = map.twin(from_b);
    (
        FaceDarts {
            a: face.a,
            b: from_b,
            c: to_a,
        },
        FaceDarts {
            a: face.b,
            b: from_c,
            c: to_b,
        },
        FaceDarts {
            a: face.c,
            b: from_a,
            c: to_c,
        },
    )
}

// Returns the darts of the inner face of the first triangle, from 0 to 2 to 1.
fn inner_face(map: &HalfMap) -> FaceDarts
    requires { IsFaceOf map.now.lists (record { a = 0; b = 2; c = 1 }) }
    ensures { HasDarts map.now result (record { a = 0; b = 2; c = 1 }) }
{
    let first = match map.dart_of(VertexId(0), VertexId(2)) {
        Some(d) => d,
        None => unreachable!(),
    };
    let second = map.face_step(first);
    let third = map.face_step(second);
    FaceDarts {
        a: first,
        b: second,
        c: third,
    }
}

/// Returns the map with `n` vertices, from 3 to 4095, that the generator makes from the seed `number`.
///
/// It begins with the triangle of the vertices 0, 1 and 2, whose lists are `1 2`, `2 0` and `0 1`, and with
/// one inner face, which goes from 0 to 2 to 1. Each further vertex k is put into an inner face: the number
/// becomes 1103515245 times itself and 12345 more, modulo 2^32, and its upper half, modulo the count of inner
/// faces, is the index of a face, which goes from a to b to c. The list of k is `a c b`; k comes directly
/// after c in the list of a, after a in that of b, and after b in that of c. The face from a to b to k
/// replaces the old one, and those from b to c to k and from c to a to k are appended.
///
/// It fails only when out of memory. The time is linear in `n`.
pub fn stacked(alloc: Global, n: u16, number: u32) -> Result<Rotations, AllocError>
    requires some { 3 ≤ n }
    requires few { n < 4096 }
    ensures { IfOk result (λ lists. lists ≡ stacked_lists n number) }
{
    let start = triangle(alloc, n)?;
    let mut map = HalfMap::from_simple(alloc, &start)?;
    map.reserve_edges(3 * (n as u32 - 3))?;
    let mut faces = Vec::new(alloc);
    faces.push(inner_face(&map))?;
    let mut row = number;
    for k in 3..n {
        row = next_number(row);
        let i = chosen(row, faces.len());
        let parts = put_vertex(&mut map, VertexId(k), faces[i]);
        faces[i] = parts.0;
        faces.push(parts.1)?;
        faces.push(parts.2)?;
    }
    map.rotations(alloc)
}
