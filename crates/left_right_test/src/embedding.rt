//! The embedding phase (third search): it settles sides and puts the twins of oriented darts into rotation lists.
ghost use Rattle.std.specs.Prelude.{◌≡◌, ◌<◌, length, IfOk};
ghost use Rattle.map_lists.specs.Cuts.{AreCuts};

use crate::dart_lists::Links;
use crate::fixed_tables::{
    ARC_ZEROS, ByArc, ByDart, ByVertex, DART_ZEROS, MANY_DARTS, MANY_STEPS, NONE, VERTEX_ZEROS,
    minus, plus,
};
use crate::search_tables::Search;
use crate::settled_sides::settle_leaving;
use map_lists::Rotations;
use std::alloc::AllocError;

/// The rotation lists being made, and where the twins of return edges go in them: left or right of the tree dart
/// towards the tail of the return edge.
#[derive(Clone, Copy)]
pub struct Places {
    // for each vertex on the way to the search the first return edge whose twin is left of the way's dart out of it
    left: ByVertex,
    // for each such vertex the first one whose twin is right of that dart
    right: ByVertex,
    // for each return edge the next one there
    next: ByArc,
    // the entries of all lists, one list after another
    entries: ByDart,
    // how many there are
    count: u32,
    // for each vertex the index of the next entry of its list
    place: ByVertex,
}

impl Places {
    /// The tables of no lists.
    pub const FRESH: Places = Places {
        left: VERTEX_ZEROS,
        right: VERTEX_ZEROS,
        next: ARC_ZEROS,
        entries: DART_ZEROS,
        count: 0,
        place: VERTEX_ZEROS,
    };

    // Puts the return edge `dart` at the front of a chain of twins at its head `head`. The chain is that left or right
    // of the tree dart there, by the settled side of `dart` in `search`.
    #[inline(always)]
    fn place_twin(&mut self, search: &Search, head: u32, dart: u32) {
        if search.side.get(dart) == 0 {
            self.next.set(dart, self.right.get(head));
            self.right.set(head, dart);
        } else {
            self.next.set(dart, self.left.get(head));
            self.left.set(head, dart);
        }
    }

    // Writes `vertex` as the list entry at index `place`. Returns the next index.
    #[inline(always)]
    fn put(&mut self, place: u32, vertex: u32) -> u32 {
        self.entries.set(place, vertex);
        plus(place, 1)
    }

    // Writes, from index `place` on, the tails of the return edges chained from `dart` on. Returns the next index.
    #[inline(always)]
    fn put_tails(&mut self, links: &Links, place: u32, dart: u32) -> u32 {
        let mut place = place;
        let mut dart = dart;
        for _ in 0..MANY_DARTS {
            if dart == NONE {
                break;
            }
            place = self.put(place, links.tail(dart));
            dart = self.next.get(dart);
        }
        place
    }

    // Moves from `vertex` to its child `head`: empties the chains of twins at `vertex`, and makes `vertex` the first
    // entry of `head`. Returns the index of the next entry of `head`.
    #[inline(always)]
    fn descend_to(&mut self, vertex: u32, head: u32) -> u32 {
        self.left.set(vertex, NONE);
        self.right.set(vertex, NONE);
        let start = self.place.get(head);
        self.put(start, vertex)
    }

    // Moves from `vertex` back to its parent `above`: writes to the list of `above` the tails of its left twins,
    // `vertex`, and the tails of its right twins. Returns the index of the next entry of `above`.
    #[inline(always)]
    fn return_to_parent(&mut self, links: &Links, vertex: u32, above: u32) -> u32 {
        let left = self.left.get(above);
        let right = self.right.get(above);
        let start = self.place.get(above);
        let place = self.put_tails(links, start, left);
        let place = self.put(place, vertex);
        self.put_tails(links, place, right)
    }

    // Writes the rotation lists of all vertices in the depth-first tree of `root` to `self.entries`, from the indices
    // in `self.place` on, which become their ends. Settles the sides of their darts in `search`, and chains them in the
    // order of rotation. Orientation and testing have to be done.
    fn write_tree_lists(&mut self, links: &Links, search: &mut Search, root: u32) {
        let mut vertex = root;
        let mut place = self.place.get(root);
        let mut dart = settle_leaving(search, root);
        for _ in 0..MANY_STEPS {
            if dart == NONE {
                let parent = search.parent.get(vertex);
                if parent == NONE {
                    break;
                }
                let above = links.tail(parent);
                self.place.set(vertex, place);
                place = self.return_to_parent(links, vertex, above);
                vertex = above;
                dart = search.chain.get(parent);
                continue;
            }
            let head = links.head.get(dart);
            if search.parent.get(head) == dart {
                self.place.set(vertex, place);
                place = self.descend_to(vertex, head);
                vertex = head;
                dart = settle_leaving(search, head);
            } else {
                place = self.put(place, head);
                self.place_twin(search, head, dart);
                dart = search.chain.get(dart);
            }
        }
        self.place.set(root, place);
    }

    /// Settles the sides of all edges in `search`, and writes the rotation lists of all vertices of `links`, which the
    /// tests passed. The list of a vertex has as many entries as its degree.
    pub fn write_all_lists(&mut self, links: &Links, search: &mut Search) {
        self.count = 0;
        for vertex in 0..links.vertices {
            self.place.set(vertex, self.count);
            self.count = plus(self.count, links.degree.get(vertex));
        }
        for place in 0..search.root_count {
            let root = search.roots.get(place);
            self.write_tree_lists(links, search, root);
        }
    }

    /// Returns the lists that were made, of `n` vertices, in the memory of `spent`. It fails only when out of memory.
    pub fn lists(&self, spent: Rotations, n: u16) -> Result<Rotations, AllocError>
        requires { n < 4096 }
        ensures { IfOk result (λ lists. length lists ≡ n) }
    {
        let mut lists = spent;
        lists.clear();
        if n == 0 {
            return Ok(lists);
        }
        let (mut entries, spent_ends) = lists.into_parts();
        entries.extend_from_slice(self.entries.first(self.count))?;
        let ends = ends_of(&self.place, spent_ends, n, entries.len())?;
        Ok(Rotations::from_parts(entries, ends))
    }
}

/// Returns the end indices of `n` lists of `total` entries, read from the table `told`, in the memory of `spent`. The
/// last one is `total`. An end below the one before it is raised to that one, and one above `total` is lowered to it.
/// It fails only when out of memory.
pub fn ends_of(
    told: &ByVertex,
    spent: Vec<usize>,
    n: u16,
    total: usize,
) -> Result<Vec<usize>, AllocError>
    ensures cuts { IfOk result (λ ends. AreCuts 0 ends.items total) }
    ensures count { 0 < n → IfOk result (λ ends. length ends.items ≡ n) }
{
    let mut ends = spent;
    ends.clear();
    ends.reserve(n as usize + 1)?;
    let mut end = 0usize;
    for vertex in 1..n {
        let place = told.get(minus(u32::from(vertex), 1)) as usize;
        end = place.max(end).min(total);
        ends.push_reserved(end);
    }
    ends.push_reserved(total);
    Ok(ends)
}
