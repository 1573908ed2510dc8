//! The public calls that count vertices, edges, faces and components of lists or a map, and the genus.
ghost use Rattle.std.specs.Prelude.{◌≡◌, ◌≤◌, ◌<◌, ◌+◌, ◌-◌, ◌*◌, ◌%◌, ℕ, length, false, None, OnOk, IfOk, IfErr};
ghost use Rattle.std.specs.Bool.{OnTrue};
ghost use Rattle.classes.specs.Classes.{class_count};
ghost use Rattle.map_theory.specs.Maps.{IsSimpleMap, darts, face_classes, isolated_count, vertex_count, edge_count, face_count, component_count, genus_of};
ghost use Rattle.simple_maps.specs.Faults.{first_fault};
ghost use Rattle.simple_maps.specs.MapFault.{Names};
ghost use Rattle.simple_maps.specs.Tables.{AreTwins};
ghost use Rattle.euler_faces.specs.Corners.{AreCornersBelow};
ghost use Rattle.euler_faces.specs.Numbers.{mark_at};
ghost use Rattle.euler_faces.specs.Search.{marks_of};
ghost use Rattle.euler_faces.specs.Stored.{lists_of};

use crate::component_search::{UNMET, number_components};
use crate::stored_map::StoredMap;
use half_edges::HalfMap;
use map_lists::Rotations;
use simple_maps::{MapFault, fill_twins};
use std::alloc::{AllocError, Global};

/// How many vertices, edges, faces and components a map has, each at most 2^24.
#[derive(Clone, Copy, PartialEq, Eq)]
pub struct EulerCount {
    /// The vertices.
    pub n: u32,
    /// The edges.
    pub m: u32,
    /// The faces: the orbits of the face step, and one for each isolated vertex.
    pub f: u32,
    /// The components.
    pub c: u32,
    pub ghost few_vertices: { n ≤ 16777216 },
    pub ghost few_edges: { m ≤ 16777216 },
    pub ghost few_faces: { f ≤ 16777216 },
    pub ghost few_components: { c ≤ 16777216 },
    pub ghost bounded: { n + f ≤ 2 * c + m },
    pub ghost even: { (2 * c + m - (n + f)) % 2 ≡ 0 },
}

impl EulerCount {
    /// Returns the genus: half of 2c + m - n - f, which is never negative and always even.
    pub fn genus(&self) -> u32
        ensures { result ≡ genus_of self.now.n self.now.m self.now.f self.now.c }
    {
        (2 * self.c + self.m - (self.n + self.f)) / 2
    }
}

// Returns `lists`, which are a simple map, as a stored map.
#[inline(always)]
fn stored(lists: &Rotations) -> StoredMap<'_>
    requires { IsSimpleMap lists.now }
    ensures { lists_of result ≡ lists.now }
{
    lists.facts();
    StoredMap {
        entries: lists.entries(),
        ends: lists.ends(),
    }
}

// Returns the counts of `map` with so many `orbits` of the face step, `isolated` vertices and `components`.
#[inline(always)]
fn euler_of(map: &StoredMap<'_>, orbits: u32, isolated: u32, components: u16) -> EulerCount
    requires orbits { orbits ≡ class_count (face_classes (lists_of map.now)) }
    requires few_orbits { orbits ≤ length map.now.entries.now }
    requires isolated { isolated ≡ isolated_count (lists_of map.now) }
    requires few_isolated { isolated ≤ length map.now.ends.now }
    requires components { components ≡ component_count (lists_of map.now) }
    ensures n { result.n ≡ vertex_count (lists_of map.now) }
    ensures m { result.m ≡ edge_count (lists_of map.now) }
    ensures f { result.f ≡ face_count (lists_of map.now) }
    ensures c { result.c ≡ component_count (lists_of map.now) }
{
    map.facts();
    EulerCount {
        n: map.ends.len() as u32,
        m: (map.entries.len() / 2) as u32,
        f: orbits + isolated,
        c: components as u32,
    }
}

/// Returns the counts of `lists`, which are a simple map, by the `twins` of their darts and the number of `components`.
/// The components are counted already. The faces are walked over the twins, which are lost. The time is linear in the
/// entries, and no memory is taken.
pub fn euler_by_twins(lists: &Rotations, twins: &mut [u32], components: u16) -> EulerCount
    requires simple { IsSimpleMap lists.now }
    requires twins { AreTwins (darts lists.now) twins.old (length (darts lists.now)) }
    requires components { components ≡ component_count lists.now }
    ensures n { result.n ≡ vertex_count lists.now }
    ensures m { result.m ≡ edge_count lists.now }
    ensures f { result.f ≡ face_count lists.now }
    ensures c { result.c ≡ component_count lists.now }
{
    let map = stored(lists);
    map.facts();
    let isolated = map.count_isolated(components);
    let most = map.most_orbits(components, isolated);
    let orbits = map.count_orbits(twins, most);
    euler_of(&map, orbits, isolated, components)
}

// Returns the counts of `map`, all faces of which are triangles, with so many `components`.
#[inline(always)]
fn euler_of_triangles(map: &StoredMap<'_>, components: u16) -> EulerCount
    requires corners { AreCornersBelow (lists_of map.now) (length map.now.entries.now) }
    requires components { components ≡ component_count (lists_of map.now) }
    ensures n { result.n ≡ vertex_count (lists_of map.now) }
    ensures m { result.m ≡ edge_count (lists_of map.now) }
    ensures f { result.f ≡ face_count (lists_of map.now) }
    ensures c { result.c ≡ component_count (lists_of map.now) }
{
    map.facts();
    let isolated = map.count_isolated(components);
    euler_of(map, (map.entries.len() / 3) as u32, isolated, components)
}

// Says whether `map`, with these `twins` of its darts, has as many entries as a triangulation, and all faces are found to
// be triangles. `next` is scratch space, which may grow. It fails only when out of memory.
#[inline(always)]
fn finds_triangles(
    map: &StoredMap<'_>,
    twins: &[u32],
    next: &mut Vec<u32>,
) -> Result<bool, AllocError>
    requires { AreTwins (darts (lists_of map.now)) twins.now (length (darts (lists_of map.now))) }
    ensures { IfOk result (λ found. OnTrue found (AreCornersBelow (lists_of map.now) (length map.now.entries.now))) }
{
    let count = map.entries.len();
    if count.wrapping_add(12) != map.ends.len().wrapping_mul(6) {
        return Ok(false);
    }
    if next.len() < count {
        next.resize(count, 0)?;
    }
    Ok(map.has_triangles(twins, &mut next[..count]))
}

/// Counts lists, one after another, and keeps its memory for the next.
///
/// For each dart and each vertex of the largest lists so far it takes a few bytes, six for a dart.
#[derive(Drop)]
pub struct Counter {
    alloc: Global,
    tails: Vec<u16>,
    twins: Vec<u32>,
    threads: Vec<u32>,
    numbers: Vec<u16>,
    queue: Vec<u16>,
}

impl Counter {
    /// Returns a counter that has counted nothing yet. It takes no memory.
    pub fn new(alloc: Global) -> Counter {
        Counter {
            alloc,
            tails: Vec::new(alloc),
            twins: Vec::new(alloc),
            threads: Vec::new(alloc),
            numbers: Vec::new(alloc),
            queue: Vec::new(alloc),
        }
    }

    // Resets the component numbers of `n` vertices to `UNMET`, and makes room for all and one more in the queue.
    fn clear(&mut self, n: usize) -> Result<(), AllocError>
        ensures marks { OnOk result (length self.new.numbers.items ≡ n) }
        ensures room { OnOk result (n < length self.new.queue.items) }
        ensures unset { OnOk result ((u : ℕ) → mark_at (marks_of self.new.numbers.items) u ≡ false) }
        ensures twins { self.new.twins ≡ self.old.twins }
    {
        self.numbers.clear();
        self.numbers.resize(n, UNMET)?;
        if self.queue.len() <= n {
            self.queue.resize(n + 1, 0)?;
        }
        Ok(())
    }

    /// Returns the counts of `lists`, from 1 to 4095 of them, or their first fault.
    ///
    /// After `NoMemory` the counter can still be used. The time is linear in the entries.
    pub fn count(&mut self, lists: &Rotations) -> Result<EulerCount, MapFault>
        requires some_list { 0 < length lists.now }
        ensures n { IfOk result (λ count. count.n ≡ vertex_count lists.now) }
        ensures m { IfOk result (λ count. count.m ≡ edge_count lists.now) }
        ensures f { IfOk result (λ count. count.f ≡ face_count lists.now) }
        ensures c { IfOk result (λ count. count.c ≡ component_count lists.now) }
        ensures simple { OnOk result (first_fault lists.now ≡ None) }
        ensures fault { IfErr result (Names (first_fault lists.now)) }
    {
        fill_twins(
            self.alloc,
            lists,
            &mut self.tails,
            &mut self.twins,
            &mut self.threads,
        )?;
        self.clear(lists.len())?;
        let map = stored(lists);
        let components = number_components(
            map.entries,
            map.ends,
            &mut self.numbers,
            &mut self.queue,
        );
        if finds_triangles(&map, &self.twins, &mut self.threads)? {
            return Ok(euler_of_triangles(&map, components));
        }
        Ok(euler_by_twins(lists, &mut self.twins, components))
    }
}

/// Returns the counts of `lists`, from 1 to 4095 of them, or their first fault. The time is linear in the entries, and
/// so is the memory: six bytes for a dart.
pub fn count_lists(alloc: Global, lists: &Rotations) -> Result<EulerCount, MapFault>
    requires some_list { 0 < length lists.now }
    ensures n { IfOk result (λ count. count.n ≡ vertex_count lists.now) }
    ensures m { IfOk result (λ count. count.m ≡ edge_count lists.now) }
    ensures f { IfOk result (λ count. count.f ≡ face_count lists.now) }
    ensures c { IfOk result (λ count. count.c ≡ component_count lists.now) }
    ensures simple { OnOk result (first_fault lists.now ≡ None) }
    ensures fault { IfErr result (Names (first_fault lists.now)) }
{
    let mut counter = Counter::new(alloc);
    counter.count(lists)
}

/// Returns the counts of `map`, in time linear in its darts. It fails only when out of memory.
pub fn euler(alloc: Global, map: &HalfMap) -> Result<EulerCount, AllocError>
    ensures n { IfOk result (λ count. count.n ≡ vertex_count map.now.lists) }
    ensures m { IfOk result (λ count. count.m ≡ edge_count map.now.lists) }
    ensures f { IfOk result (λ count. count.f ≡ face_count map.now.lists) }
    ensures c { IfOk result (λ count. count.c ≡ component_count map.now.lists) }
{
    let lists = map.rotations(alloc)?;
    match count_lists(alloc, &lists) {
        Ok(count) => Ok(count),
        Err(fault) => match fault {
            MapFault::NoMemory => Err(AllocError),
            // the lists of a map have no fault
            _ => unreachable!(),
        },
    }
}
