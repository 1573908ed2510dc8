//! The numbers of a map's faces at each list entry, by the twins of its darts, with no half-edge map.
ghost use Rattle.std.specs.Prelude.{◌≡◌, ◌<◌, ◌^◌, ℕ, List, length, map, slice_index, IfOk};
ghost use Rattle.classes.specs.Classes.{class_count};
ghost use Rattle.map_lists.specs.Cuts.{ends_from};
ghost use Rattle.map_theory.specs.Maps.{IsSimpleMap, darts, face_classes};
ghost use Rattle.simple_maps.specs.Tables.{AreTwins};
ghost use Rattle.convex_orders.specs.FaceNumbers.{AreFaceNumbers};
ghost use Rattle.bipolar.specs.FaceNumbers.{AreFaceNumbers as NumberFaces};

use bipolar::dual_orders::{FaceTables, number_faces};
use convex_orders::face_numbers::FaceNumbers;
use half_edges::Rotations;
use map_lists::ItemLists;
use std::alloc::{AllocError, Global};

/// The numbers of faces, and the tables with which they are found. What these hold from map to map is memory alone.
#[derive(Drop)]
pub(crate) struct NumberTables {
    pub(crate) numbers: FaceNumbers,
    pub(crate) rank: Vec<u16>,
    pub(crate) arcs: ItemLists<u32>,
}

impl NumberTables {
    /// Returns tables of no map. They take no memory.
    pub(crate) fn new(alloc: Global) -> NumberTables {
        NumberTables {
            numbers: FaceNumbers {
                own: ItemLists::new(alloc),
                other: ItemLists::new(alloc),
                count: 0,
            },
            rank: Vec::new(alloc),
            arcs: ItemLists::new(alloc),
        }
    }
}

// Returns for each dart the entry of `of` at its twin, whose index is in `twins`, in the memory of `spent`.
fn at_twins(spent: Vec<u32>, of: &[u32], twins: &[u32]) -> Result<Vec<u32>, AllocError>
    requires within { (i : ℕ) → i < length twins.now → slice_index twins.now i < length of.now }
    ensures { IfOk result (λ made. made.items ≡ map (λ t. slice_index of.now t) twins.now) }
{
    let mut made = spent;
    made.clear();
    made.reserve(twins.len())?;
    for t in twins {
        made.push(of[*t as usize])?;
    }
    Ok(made)
}

// Returns the ends of the concatenated lists, in the memory of `spent`.
fn ends_of(spent: Vec<usize>, lists: &Rotations) -> Result<Vec<usize>, AllocError>
    ensures { IfOk result (λ made. made.items ≡ ends_from 0 lists.now) }
{
    let mut made = spent;
    made.clear();
    made.extend_from_slice(lists.ends())?;
    Ok(made)
}

/// Returns the numbers of the faces of the simple map with these `lists`, in the memory of `tables`. `twins` has for
/// each dart the index of its twin. It fails only when out of memory.
pub(crate) fn numbers_again(
    tables: NumberTables,
    lists: &Rotations,
    twins: &[u32],
) -> Result<NumberTables, AllocError>
    requires simple { IsSimpleMap lists.now }
    requires twins { AreTwins (darts lists.now) twins.now (length (darts lists.now)) }
    ensures numbers { IfOk result (λ made. AreFaceNumbers lists.now made.numbers.own made.numbers.other made.numbers.count) }
    ensures count { IfOk result (λ made. made.numbers.count ≡ class_count (face_classes lists.now)) }
{
    lists.facts();
    let mut rank = tables.rank;
    rank.clear();
    rank.resize(lists.len(), 0)?;
    let (of, own_ends) = tables.numbers.own.into_parts();
    let (other, other_ends) = tables.numbers.other.into_parts();
    let spent = FaceTables {
        of,
        arcs: tables.arcs,
    };
    let faces = number_faces(spent, lists.entries(), lists.ends(), twins, &rank)?;
    let other = at_twins(other, &faces.of, twins)?;
    let own_ends = ends_of(own_ends, lists)?;
    let other_ends = ends_of(other_ends, lists)?;
    let numbers = FaceNumbers {
        own: ItemLists::from_parts(faces.of, own_ends),
        other: ItemLists::from_parts(other, other_ends),
        count: faces.arcs.len() as u32,
    };
    Ok(NumberTables {
        numbers,
        rank,
        arcs: faces.arcs,
    })
}
