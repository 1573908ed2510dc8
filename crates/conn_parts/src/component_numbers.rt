//! The components of a map or of lists, numbered, as the type `Parts`.
ghost use Rattle.std.specs.Prelude.{◌≡◌, ◌<◌, length, slice_index, IfOk};
ghost use Rattle.map_lists.specs.Cuts.{cut};
ghost use Rattle.map_theory.specs.Maps.{IsSimpleMap};
ghost use Rattle.conn_parts.specs.Parts.{ArePartsOf};

use euler_faces::{UNMET, number_components};
use half_edges::{HalfMap, Rotations, VertexId};
use std::alloc::{AllocError, Global};
use std::marker::Model;

/// The components of a map, numbered from 0 in the order of their least vertices.
///
/// An edit of the map leaves the numbers as they were.
#[derive(Drop)]
pub struct Parts {
    count: u16,
    // for each vertex the number of its component
    numbers: Vec<u16>,
}

impl Model for Parts {
    ghost use Rattle.conn_parts.specs.Parts.{PartNumbers};

    ghost Value = { PartNumbers };

    ghost view = { λ p. record { count = p.count; numbers = p.numbers.items } };
}

impl Parts {
    /// Returns the components of no vertices. It takes no memory.
    pub fn new(alloc: Global) -> Parts {
        Parts {
            count: 0,
            numbers: Vec::new(alloc),
        }
    }

    /// Returns the number of components.
    pub fn count(&self) -> u16
        ensures { result ≡ self.now.count }
    {
        self.count
    }

    /// Returns the number of the component of `v`, a vertex of the map that was numbered.
    pub fn of(&self, v: VertexId) -> u16
        requires { v.0 < length self.now.numbers }
        ensures { result ≡ slice_index self.now.numbers v.0 }
    {
        self.numbers[v.0 as usize]
    }
}

/// Returns the components of `map`, in time linear in its darts. It fails only when out of memory.
pub fn components(alloc: Global, map: &HalfMap) -> Result<Parts, AllocError>
    ensures { IfOk result (ArePartsOf map.now.lists) }
{
    let lists = map.rotations(alloc)?;
    list_components(alloc, &lists)
}

/// Returns the components of lists that are a simple map of at most 4095 vertices, in time linear in the entries. It
/// fails only when out of memory.
pub fn list_components(alloc: Global, lists: &Rotations) -> Result<Parts, AllocError>
    requires simple { IsSimpleMap lists.now }
    ensures { IfOk result (ArePartsOf lists.now) }
{
    let mut queue = Vec::new(alloc);
    let parts = numbered_parts(lists, Parts::new(alloc), &mut queue)?;
    Ok(parts)
}

/// Returns the components of `lists`, like [`list_components`], but in the memory of `spent` and `queue`. What these
/// two hold does not matter.
#[inline(always)]
pub fn numbered_parts(
    lists: &Rotations,
    spent: Parts,
    queue: &mut Vec<u16>,
) -> Result<Parts, AllocError>
    requires simple { IsSimpleMap lists.now }
    ensures { IfOk result (ArePartsOf lists.now) }
{
    let mut numbers = spent.numbers;
    numbers.clear();
    numbers.resize(lists.len(), UNMET)?;
    queue.resize(lists.len() + 1, 0)?;
    let count = number_components(lists.entries(), lists.ends(), &mut numbers, queue);
    Ok(Parts { count, numbers })
}
