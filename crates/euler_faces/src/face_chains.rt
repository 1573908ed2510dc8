//! Searches a map's faces over chains of faces, each sharing an edge with the next, by the parity of counted edges.
ghost use Rattle.std.specs.Prelude.{◌≡◌, ◌<◌, ◌*◌, ℕ, false, not, if◌then◌else◌, length, OnOk};
ghost use Rattle.map_lists.specs.declared.ids.DartId.{DartId as TheDart};
ghost use Rattle.half_edges.specs.Map.{IsLive, id_bound};
ghost use Rattle.euler_faces.specs.Numbers.{mark_at};
ghost use Rattle.euler_faces.specs.ChainSearch.{place, Meets, GoesFrom, MarksReached};

use half_edges::{DartId, HalfMap};
use std::alloc::{AllocError, Global};

// The face left of a dart, as a chain comes to it: whether the chain has stepped over an odd number of counted edges.
#[derive(Clone, Copy)]
pub(crate) struct FaceSide {
    pub(crate) dart: DartId,
    pub(crate) odd: bool,
}

impl FaceSide {
    // Returns the index of this side's mark, in a table of two marks for each dart id.
    fn place(self) -> usize
        ensures { result ≡ place self.dart.0 self.odd }
    {
        let first = 2 * (self.dart.0 as usize);
        if self.odd { first + 1 } else { first }
    }
}

// Marks `side`, a dart and a parity, in `met` and pushes it on the stack `sides`, unless it has a mark already.
fn meet(met: &mut [bool], sides: &mut Vec<FaceSide>, side: FaceSide) -> Result<(), AllocError>
    requires { place side.dart.0 side.odd < length met.old }
    ensures { OnOk result (Meets met.old sides.old.items side met.new sides.new.items) }
{
    let place = side.place();
    if met[place] {
        return Ok(());
    }
    met[place] = true;
    sides.push(side)?;
    Ok(())
}

// Returns `value`, negated where `turn` holds.
fn turned_where(turn: bool, value: bool) -> bool
    ensures { result ≡ (if turn then not value else value) }
{
    if turn { !value } else { value }
}

// Continues from `side`, a dart and a parity, to the next dart of its face, and to its twin, where `counts` may change
// the parity. What is new is marked in `met`, two entries for each dart id, and pushed on `sides`.
fn go_on<F: Fn(DartId) -> bool>(
    map: &HalfMap,
    counts: &F,
    met: &mut [bool],
    sides: &mut Vec<FaceSide>,
    side: FaceSide,
) -> Result<(), AllocError>
    requires live { IsLive map.now side.dart.0 }
    requires test { (e : TheDart) → IsLive map.now e.0 → F.pre counts.now e }
    requires room { length met.old ≡ 2 * id_bound map.now }
    ensures { OnOk result (GoesFrom map.now (F.post counts.now) side met.old sides.old.items met.new sides.new.items) }
{
    let along = FaceSide {
        dart: map.face_step(side.dart),
        odd: side.odd,
    };
    meet(met, sides, along)?;
    let turn = counts(side.dart);
    let across = FaceSide {
        dart: map.twin(side.dart),
        odd: turned_where(turn, side.odd),
    };
    meet(met, sides, across)?;
    Ok(())
}

/// Marks the faces that chains of faces reach from that of dart `start`, each sharing an edge with the next.
///
/// `counts` says of a dart whether its edge counts. `met` has two entries for each dart id, with no mark yet. In the
/// end entry 2i is marked where a chain comes to the face on the left of dart i over an even number of edges that
/// count, and entry 2i + 1 where one comes there over an odd number.
///
/// It fails only when out of memory. The time is linear in the map.
pub fn mark_reached<F: Fn(DartId) -> bool>(
    alloc: Global,
    map: &HalfMap,
    met: &mut [bool],
    start: DartId,
    counts: F,
) -> Result<(), AllocError>
    requires live { IsLive map.now start.0 }
    requires test { (e : TheDart) → IsLive map.now e.0 → F.pre counts e }
    requires room { length met.old ≡ 2 * id_bound map.now }
    requires unset { (i : ℕ) → mark_at met.old i ≡ false }
    ensures { OnOk result (MarksReached map.now (F.post counts) start.0 met.new) }
{
    let mut sides = Vec::new(alloc);
    let first = FaceSide {
        dart: start,
        odd: false,
    };
    meet(met, &mut sides, first)?;
    while let Some(side) = sides.pop() {
        go_on(map, &counts, met, &mut sides, side)?;
    }
    Ok(())
}
