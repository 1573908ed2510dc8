//! Records of darts and vertices in the arena of a half-edge map, and how they are linked round a vertex.
ghost use Rattle.std.specs.Prelude.{vec_len, vec_capacity, ◌≡◌, ◌+◌, ◌-◌, ◌<◌, ◌≤◌, ◌==◌, nat_lt, if◌then◌else◌, ◌∷◌, ◌++◌, ◌⊎◌, ℕ, length, map, slice_index, slice_index_or, OnOk, IfOk, MatchOption};
ghost use Rattle.map_lists.specs.Cuts.{AreCuts};
ghost use Rattle.half_edges.specs.Arena.{IsWalkable, record_at, steps, head_of, walk, next_of, prev_of};
ghost use Rattle.half_edges.specs.Links.{IsSpliced, IsUnspliced, IsThreaded};
ghost use Rattle.half_edges.specs.Tables.{AreLinked};
ghost use Rattle.simple_maps.specs.Tables.{AreSlots};
ghost use Rattle.half_edges.specs.Rounds.{IsInLine, round_record, AreRounds, AreRoundVertices};
ghost use Rattle.simple_maps.specs.Pass.{AreInLine};

use map_lists::Rotations;
use simple_maps::DartSlot;
use std::alloc::AllocError;

// The record of a dart: its twin, the next and the previous dart round its tail, and its tail. In a free record,
// which is not live, the twin is free too. There `next` is a dart of the next free edge, and `prev` the number of
// free edges after this one.
#[derive(Clone, Copy)]
pub(crate) struct DartRecord {
    pub(crate) twin: u32,
    pub(crate) next: u32,
    pub(crate) prev: u32,
    pub(crate) tail: u16,
    pub(crate) live: bool,
}

impl DartSlot for DartRecord {
    ghost tail_of = { λ r. r.tail };

    ghost twin_of = { λ r. r.twin };

    ghost IsInLine = { IsInLine };

    // Returns the record of a live dart at index `place`, whose previous and next dart are those at the indices before
    // and after it.
    fn new(tail: u16, twin: u32, place: u32) -> DartRecord {
        DartRecord {
            twin,
            next: place + 1,
            prev: place.wrapping_sub(1),
            tail,
            live: true,
        }
    }
}

// The first dart of a vertex, which means nothing where there is none, and the vertex's degree.
#[derive(Clone, Copy)]
pub(crate) struct VertexRecord {
    pub(crate) first: u32,
    pub(crate) degree: u16,
}

// Appends to `entries`, which has room, the heads of the `degree` darts round a vertex from `first` on.
pub(crate) fn push_heads(entries: &mut Vec<u16>, darts: &[DartRecord], first: u32, degree: u16)
    requires walkable { IsWalkable darts.now first degree }
    requires room { vec_len entries.old + degree ≤ vec_capacity entries.old }
    ensures heads { entries.new.items ≡ entries.old.items ++ walk darts.now first degree }
    ensures capacity { vec_capacity entries.old ≤ vec_capacity entries.new }
{
    let mut d = first;
    for k in 0..degree {
        let record = darts[d as usize];
        entries.push_reserved(darts[record.twin as usize].tail);
        d = record.next;
    }
}

// Returns the first dart to `head` of the `degree` in `darts` round a vertex from `first` on, or `None`.
pub(crate) fn dart_to(darts: &[DartRecord], first: u32, degree: u16, head: u16) -> Option<u32>
    requires { IsWalkable darts.now first degree }
    ensures { MatchOption result ((k : ℕ) → k < degree → ¬ (head_of darts.now (steps darts.now first k) ≡ head))
        (λ d. (k : ℕ) × (k < degree) × (d ≡ steps darts.now first k) × (head_of darts.now d ≡ head)) }
{
    let mut d = first;
    for k in 0..degree {
        let record = darts[d as usize];
        if darts[record.twin as usize].tail == head {
            return Some(d);
        }
        d = record.next;
    }
    None
}

// Links the first and the last of the `darts` from index `start` up to `end`, so that they form a cycle round their
// vertex. Each is already linked to its neighbours by index.
fn close_round(darts: &mut [DartRecord], start: u32, end: u32)
    requires order { start ≤ end }
    requires within { end ≤ length darts.old }
    requires line { (d : ℕ) → start ≤ d → d < end → IsInLine (record_at darts.old d) d }
    ensures here { (d : ℕ) → start ≤ d → d < end → record_at darts.new d ≡ round_record darts.old start end d }
    ensures elsewhere { (d : ℕ) → d < start ⊎ end ≤ d → record_at darts.new d ≡ record_at darts.old d }
{
    if start < end {
        darts[start as usize].prev = end - 1;
        darts[end as usize - 1].next = start;
    }
}

// Links `darts`, each linked to its neighbours by index, to a cycle for each vertex, and makes `vertices` their
// records. `ends[v]` is the index after the last dart of vertex `v`. It fails only when out of memory.
fn close_rounds(
    ends: &[usize],
    darts: &mut [DartRecord],
    vertices: &mut Vec<VertexRecord>,
) -> Result<(), AllocError>
    requires cuts { AreCuts 0 ends.now (length darts.old) }
    requires few { length darts.old < 16777216 }
    requires line { (d : ℕ) → d < length darts.old → IsInLine (record_at darts.old d) d }
    requires few_vertices { length ends.now < 4096 }
    requires short { (v : ℕ) → v < length ends.now → slice_index ends.now v - slice_index_or (0 ∷ ends.now) v 0 < 65536 }
    ensures rounds { OnOk result (AreRounds ends.now darts.old darts.new (length ends.now)) }
    ensures vertices { OnOk result (AreRoundVertices ends.now vertices.new.items (length ends.now)) }
{
    vertices.clear();
    vertices.reserve(ends.len())?;
    let mut start = 0;
    for v in 0..ends.len() {
        let end = ends[v];
        close_round(darts, start as u32, end as u32);
        vertices.push_reserved(VertexRecord {
            first: start as u32,
            degree: (end - start) as u16,
        });
        start = end;
    }
    Ok(())
}

// Links `darts` to cycles round their vertices, and makes `vertices` the vertex records. `darts` are those of `lists`,
// with tails and twins, each linked to the indices before and after it. It fails only when out of memory.
pub(crate) fn link_darts(
    lists: &Rotations,
    darts: &mut Vec<DartRecord>,
    vertices: &mut Vec<VertexRecord>,
) -> Result<(), AllocError>
    requires slots { AreSlots lists.now (map (λ r. r.tail) darts.old.items) (map (λ r. r.twin) darts.old.items) }
    requires line { AreInLine IsInLine darts.old.items (length darts.old.items) }
    ensures { OnOk result (AreLinked lists.now darts.new.items vertices.new.items) }
{
    lists.facts();
    close_rounds(lists.ends(), darts, vertices)?;
    Ok(())
}

// Links the dart `d` of `darts`, now live and with this `tail`, between the darts `before` and `after`. Both are `d`
// itself where it is the only one.
pub(crate) fn splice(darts: &mut [DartRecord], d: u32, before: u32, after: u32, tail: u16)
    requires d_in { d < length darts.old }
    requires before_in { before < length darts.old }
    requires after_in { after < length darts.old }
    requires alone { before ≡ d → after ≡ d }
    requires alone_too { after ≡ d → before ≡ d }
    ensures { IsSpliced darts.old darts.new d before after tail }
{
    let twin = darts[d as usize].twin;
    darts[d as usize] = DartRecord {
        twin,
        next: after,
        prev: before,
        tail,
        live: true,
    };
    darts[before as usize].next = d;
    darts[after as usize].prev = d;
}

// Unlinks the dart `d` of `darts` from between the previous and the next dart round its tail. It is no longer live.
pub(crate) fn unsplice(darts: &mut [DartRecord], d: u32)
    requires d_in { d < length darts.old }
    requires prev_in { prev_of darts.old d < length darts.old }
    requires next_in { next_of darts.old d < length darts.old }
    ensures { IsUnspliced darts.old darts.new d }
{
    let record = darts[d as usize];
    darts[record.prev as usize].next = record.next;
    darts[record.next as usize].prev = record.prev;
    darts[d as usize].live = false;
}

// Puts the edge of `d` and `twin` at the front of the list of free edges in `darts`. That list begins at the dart
// `free` and has `spare` edges.
pub(crate) fn thread(darts: &mut [DartRecord], d: u32, twin: u32, free: u32, spare: u32)
    requires d_in { d < length darts.old }
    requires twin_in { twin < length darts.old }
    ensures { IsThreaded darts.old darts.new d twin free spare }
{
    darts[d as usize].next = free;
    darts[d as usize].prev = spare;
    darts[twin as usize].prev = spare;
}
