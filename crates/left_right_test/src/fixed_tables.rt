//! Tables of fixed length by vertex, edge or dart, which take any index modulo their length, and wrapping sums.
//!
//! A graph has at most 255 vertices, and at most 760 of its edges are read, so that their indices stay distinct.
//! Entries of an earlier graph stay in the tables, so that no more is written than what a graph needs.
ghost use Rattle.std.specs.Prelude.{◌<◌};

/// Sentinel for no vertex, dart or edge. No real one has its slot in a table.
pub const NONE: u32 = 0xffff;

/// A bound above the number of darts. A loop along darts with a known bound saves a test.
pub const MANY_DARTS: u32 = 2048;

/// A bound above the number of steps of a search.
pub const MANY_STEPS: u32 = 4096;

/// A table of `N` numbers, whose index is taken modulo `N`.
#[derive(Clone, Copy)]
pub struct Row<const N: usize> {
    cells: [u16; N],
}

/// A table of numbers by vertex.
pub type ByVertex = Row<256>;

/// A table of numbers by edge.
pub type ByEdge = Row<1024>;

/// A table of numbers by dart.
pub type ByDart = Row<2048>;

/// The table by vertex in which each number is 0.
pub const VERTEX_ZEROS: ByVertex = Row { cells: [0; 256] };

/// The table by edge in which each number is 0.
pub const EDGE_ZEROS: ByEdge = Row { cells: [0; 1024] };

/// The table by dart in which each number is 0.
pub const DART_ZEROS: ByDart = Row { cells: [0; 2048] };

impl<const N: usize> Row<N> {
    /// Returns the number at index `place` modulo the length.
    #[inline(always)]
    pub fn get(&self, place: u32) -> u32
        requires { 0 < N }
    {
        u32::from(self.cells[place as usize % N])
    }

    /// Writes the last 16 bits of `number` at index `place` modulo the length.
    #[inline(always)]
    pub fn set(&mut self, place: u32, number: u32)
        requires { 0 < N }
    {
        self.cells[place as usize % N] = (number & 0xffff) as u16;
    }

    /// Returns the first `count` numbers, or all where there are fewer.
    #[inline(always)]
    pub fn first(&self, count: u32) -> &[u16] {
        &self.cells[..(count as usize).min(N)]
    }

    /// Writes `number` at the first `count` indices, or at all where there are fewer, and at that of NONE.
    #[inline(always)]
    pub fn fill(&mut self, count: u32, number: u32)
        requires { 0 < N }
    {
        for cell in self.cells[..(count as usize).min(N)].iter_mut() {
            *cell = (number & 0xffff) as u16;
        }
        self.set(NONE, number);
    }
}

/// A table of numbers by edge, indexed by either of the edge's darts.
#[derive(Clone, Copy)]
pub struct ByArc {
    edges: ByEdge,
}

/// The table by edge or dart in which each number is 0.
pub const ARC_ZEROS: ByArc = ByArc { edges: EDGE_ZEROS };

impl ByArc {
    /// Writes `number` for the first `count` edges, or for all where there are fewer.
    #[inline(always)]
    pub fn fill(&mut self, count: u32, number: u32) {
        self.edges.fill(count, number);
    }

    /// Returns the number for the edge of `dart`.
    #[inline(always)]
    pub fn get(&self, dart: u32) -> u32 {
        self.edges.get(dart >> 1)
    }

    /// Writes `number` for the edge of `dart`.
    #[inline(always)]
    pub fn set(&mut self, dart: u32, number: u32) {
        self.edges.set(dart >> 1, number);
    }
}

/// Returns the sum of two numbers, which wraps.
#[inline(always)]
pub fn plus(one: u32, other: u32) -> u32 {
    one.wrapping_add(other)
}

/// Returns the difference of two numbers, which wraps.
#[inline(always)]
pub fn minus(one: u32, other: u32) -> u32 {
    one.wrapping_sub(other)
}

/// Returns twice a number, which wraps.
#[inline(always)]
pub fn twice(number: u32) -> u32 {
    number.wrapping_add(number)
}

/// Returns the lesser of two numbers.
#[inline(always)]
pub fn lesser(one: u32, other: u32) -> u32 {
    if one < other { one } else { other }
}
