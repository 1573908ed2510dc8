//! Makes the faces of a half-edge map: walks along the face step, numbered by their first darts.
ghost use Rattle.std.specs.Prelude.{◌≡◌, ◌<◌, ◌+◌, ℕ, [], length, false, IfOk, OnOk};
ghost use Rattle.classes.specs.Classes.{class_count};
ghost use Rattle.map_theory.specs.Maps.{darts_before, face_classes};
ghost use Rattle.half_edges.specs.Map.{IsLive, id_bound};
ghost use Rattle.euler_faces.specs.Numbers.{number_at, mark_at};
ghost use Rattle.euler_faces.specs.FaceWalks.{AreFaces, AreNumbered};
ghost use Rattle.euler_faces.specs.FaceSearch.{AreWalked, with_face};

use crate::face_walks::{Faces, Walk};
use half_edges::{DartId, HalfMap, VertexId};
use std::alloc::{AllocError, Global};

// Stands in place of the face of a dart that was not met yet.
const NO_FACE: u32 = u32::MAX;

// A map whose faces are walked, and what their walks get memory from.
#[derive(Clone, Copy)]
struct Walking<'a> {
    alloc: Global,
    map: &'a HalfMap,
}

impl Walking<'_> {
    // Appends the walk of the face of `start` to `walks`, if the face has no number in `of` yet, and writes its number
    // there at its darts' ids. The darts before `start` have their faces, so that `start` is the first of a new one.
    fn add_dart(
        &self,
        of: &mut [u32],
        walks: &mut Vec<Walk>,
        start: DartId,
    ) -> Result<(), AllocError>
        requires live { IsLive self.now.map.now start.0 }
        requires walking { AreWalked self.now.map.now walks.old.items of.old (number_at self.now.map.now start.0) }
        ensures { OnOk result (AreWalked self.now.map.now walks.new.items of.new (number_at self.now.map.now start.0 + 1)) }
    {
        let map = self.map;
        if of[start.0 as usize] != NO_FACE {
            return Ok(());
        }
        let f = walks.len() as u32;
        let mut walk = Walk::new(self.alloc);
        let mut d = start;
        while of[d.0 as usize] == NO_FACE {
            of[d.0 as usize] = f;
            walk.push(d)?;
            d = map.face_step(d);
        }
        walks.push(walk)?;
        Ok(())
    }

    // Appends the walks of the faces whose least dart is one of those from `v` to `walks`, and numbers them in `of`.
    // The darts of the vertices before have their faces.
    fn add_vertex(
        &self,
        of: &mut [u32],
        walks: &mut Vec<Walk>,
        v: VertexId,
    ) -> Result<(), AllocError>
        requires v_in { v.0 < length self.now.map.now.lists }
        requires walking { AreWalked self.now.map.now walks.old.items of.old (darts_before self.now.map.now.lists v.0) }
        ensures { OnOk result (AreWalked self.now.map.now walks.new.items of.new (darts_before self.now.map.now.lists (v.0 + 1))) }
    {
        let Some(first) = self.map.first_dart(v) else {
            return Ok(());
        };
        let mut d = first;
        'round: loop {
            self.add_dart(of, walks, d)?;
            d = self.map.next(d);
            if d.0 == first.0 {
                return Ok(());
            }
        }
    }

    // Appends the walks of all faces to `walks`, which is empty, and numbers them in `of`, which has no face yet.
    fn add_all(&self, of: &mut [u32], walks: &mut Vec<Walk>) -> Result<(), AllocError>
        requires size { length of.old ≡ id_bound self.now.map.now }
        requires unset { (i : ℕ) → mark_at (with_face of.old) i ≡ false }
        requires none { walks.old.items ≡ [] }
        ensures faces { OnOk result (AreFaces self.now.map.now walks.new.items) }
        ensures count { OnOk result (length walks.new.items ≡ class_count (face_classes self.now.map.now.lists)) }
        ensures numbered { OnOk result (AreNumbered walks.new.items of.new) }
    {
        for v in 0..self.map.n() {
            self.add_vertex(of, walks, VertexId(v))?;
        }
        Ok(())
    }
}

/// Returns the faces of a map. It fails only when out of memory. The time is linear in the darts, and so is the memory.
///
/// Each walk begins at its first dart in the order of the lists, and the walks stand in the order of those darts.
pub fn faces(alloc: Global, map: &HalfMap) -> Result<Faces, AllocError>
    ensures walks { IfOk result (AreFaces map.now) }
    ensures count { IfOk result (λ faces. length faces ≡ class_count (face_classes map.now.lists)) }
{
    let ids = 2 * (map.m() as usize + map.spare() as usize);
    let mut of = vec![in alloc; NO_FACE; ids]?;
    // by Euler's formula, the number of faces of a connected map of genus zero
    let faces = (map.m() as usize + 2).saturating_sub(map.n() as usize);
    let mut walks = Vec::with_capacity(alloc, faces)?;
    let walking = Walking { alloc, map };
    walking.add_all(&mut of, &mut walks)?;
    Ok(Faces { walks, of })
}
