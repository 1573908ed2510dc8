//! The edges of a vertex by which others return, found in the stacks of what is below it.
ghost use Rattle.std.specs.Prelude.{◌≡◌, ◌≢◌, ◌∷◌, ◌+◌, ◌<◌, ℕ, Bool, List, [], length, slice_index, Contains, IfOk};
ghost use Rattle.left_right_maps.specs.RootedMaps.{is_child as is_child_in};
ghost use Rattle.left_right_blocks.specs.Blocks.{Block};
ghost use Rattle.left_right_blocks.specs.States.{IsState};
ghost use Rattle.left_right_blocks.specs.declared.fork_edges.ForkEdge.{ForkEdge as Edge};
ghost use Rattle.left_right_blocks.specs.declared.ties.Tie.{Tie};
ghost use Rattle.chained_lists.specs.Held.{Holds};
ghost use Rattle.left_right_sides.specs.Items.{HoldsBut};
ghost use Rattle.left_right_sides.specs.Standing.{IsStanding, IsNext, IsPartOf, IsStackOf, IsSearchTree};
ghost use Rattle.left_right_sides.specs.Views.{rooted_by, MatchUpward, IsAlike, IsChildFound, AreFoundTo, MatchLooked, MatchPlaced};

use crate::nesting::insert_nested;
use chained_lists::ChainedLists;
use left_right_blocks::{Blocks, ForkEdge};
use std::alloc::{AllocError, Global};

/// Returns the entry at index `place` of `list`, or 0 past its end.
pub(crate) fn entry(list: &[u16], place: usize) -> u16
    ensures { result ≡ slice_index list.now place }
{
    if place < list.len() { list[place] } else { 0 }
}

// Writes the least depth at which an edge of the fork `found` at `v` ends to `lows`, if there is such an edge.
fn set_low(lows: &mut [u16], v: u16, found: &[ForkEdge])
    ensures length { length lows.new ≡ length lows.old }
    ensures others { (u : ℕ) → u ≢ v → slice_index lows.new u ≡ slice_index lows.old u }
    ensures here { (d : Edge) (rest : List Edge) → v < length lows.old → found.now ≡ d ∷ rest → slice_index lows.new v ≡ d.low }
{
    let v = usize::from(v);
    if found.is_empty() {
        return;
    }
    if v < lows.len() {
        lows[v] = found[0].low;
    }
}

/// A rooted tree and the edges that lead upwards in it, as tables.
#[derive(Clone, Copy)]
pub(crate) struct VertexForks<'a> {
    pub alloc: Global,
    /// For each vertex its parent.
    pub parents: &'a [u16],
    /// For each vertex its depth.
    pub depths: &'a [u16],
    /// The edges that lead upwards, from their lower ends.
    pub darts: &'a [(u16, u16)],
    /// For each edge the depth of its upper end.
    pub heights: &'a [u16],
}

impl<'a> VertexForks<'a> {
    // Says whether vertex `v` is the parent of `u`.
    fn is_child(&self, v: u16, u: usize) -> bool
        ensures { result ≡ is_child_in (slice_index self.now.parents.now) (slice_index self.now.depths.now) v u }
    {
        entry(self.depths, u) != 0 && entry(self.parents, u) == v
    }

    // Returns the edge `x` as one of the fork at `v`, if it leads upwards from there and not to the parent.
    fn upward_edge(&self, v: u16, x: usize) -> Option<ForkEdge>
        requires { x < length self.now.darts.now }
        ensures { MatchUpward self.now.parents.now self.now.darts.now self.now.heights.now v x result }
    {
        let dart = self.darts[x];
        if dart.0 != v || dart.1 == entry(self.parents, usize::from(v)) {
            return None;
        }
        Some(ForkEdge {
            stack: x,
            low: entry(self.heights, x),
            mixed: false,
        })
    }

    /// Returns the number of stacks that may be of a fork: one for each edge, and behind these one for each vertex.
    pub(crate) fn stacks(&self) -> usize
        ensures { result ≡ length self.now.darts.now + length self.now.parents.now }
    {
        self.darts.len() + self.parents.len()
    }

    // Trims the part of `u`, a child of `v`, in `blocks`, and returns it as an edge of the fork at `v`, if it has an edge.
    // `low` is the least depth at which one of its edges ends. It fails only when out of memory.
    fn child_edge(
        &self,
        blocks: &mut Blocks,
        low: u16,
        v: u16,
        u: usize,
    ) -> Result<Option<ForkEdge>, AllocError>
        requires { u < length self.now.parents.now }
        ensures alike { IsAlike blocks.old blocks.new }
        ensures found { (edge : ℕ → ℕ → Bool) (number : ℕ → ℕ) (P : ℕ → List Block) → IsState blocks.old P → IsPartOf (rooted_by edge number self.now.parents.now self.now.depths.now self.now.darts.now self.now.heights.now) u low (P (length self.now.darts.now + u)) → IfOk result (IsChildFound (rooted_by edge number self.now.parents.now self.now.depths.now self.now.darts.now self.now.heights.now) (slice_index self.now.depths.now v) low (length self.now.darts.now + u) P blocks.old blocks.new) }
    {
        let stack = self.darts.len() + u;
        blocks.trim(self.heights, stack, entry(self.depths, usize::from(v)))?;
        let Some(deepest) = blocks.deepest(self.heights, stack) else {
            return Ok(None);
        };
        Ok(Some(ForkEdge {
            stack,
            low,
            mixed: low < deepest,
        }))
    }

    // Returns the stack `p` as an edge of the fork at `v`, if it is one by which an edge returns; a child's part is trimmed.
    // `lows` has for each vertex the least depth at which one of its part ends. It fails only when out of memory.
    fn edge_of(
        &self,
        blocks: &mut Blocks,
        lows: &[u16],
        v: u16,
        p: usize,
    ) -> Result<Option<ForkEdge>, AllocError>
        ensures alike { IsAlike blocks.old blocks.new }
        ensures found { (edge : ℕ → ℕ → Bool) (number : ℕ → ℕ) (root k : ℕ) (P : ℕ → List Block) (ties : List Tie) (ds : List Edge) (left : List ℕ) → IsSearchTree (rooted_by edge number self.now.parents.now self.now.depths.now self.now.darts.now self.now.heights.now) root → IsStanding (rooted_by edge number self.now.parents.now self.now.depths.now self.now.darts.now self.now.heights.now) k (slice_index lows.now) P ties → IsNext (rooted_by edge number self.now.parents.now self.now.depths.now self.now.darts.now self.now.heights.now) k v → ¬ Contains left p → AreFoundTo (rooted_by edge number self.now.parents.now self.now.depths.now self.now.darts.now self.now.heights.now) v P ties blocks.old ds (p ∷ left) → IfOk result (MatchLooked (rooted_by edge number self.now.parents.now self.now.depths.now self.now.darts.now self.now.heights.now) v P ties blocks.new ds left) }
    {
        if p < self.darts.len() {
            return Ok(self.upward_edge(v, p));
        }
        let u = p - self.darts.len();
        if u >= self.parents.len() {
            return Ok(None);
        }
        if !self.is_child(v, u) {
            return Ok(None);
        }
        let found = self.child_edge(blocks, entry(lows, u), v, u)?;
        Ok(found)
    }

    // Returns the edges of the fork at `v` by which others return, in nesting order; the parts of children are trimmed. The
    // stacks of the fork are taken from the list of `v` in `items`. It fails only when out of memory.
    fn find_edges(
        &self,
        blocks: &mut Blocks,
        items: &mut ChainedLists,
        lows: &[u16],
        v: u16,
    ) -> Result<Vec<ForkEdge>, AllocError>
        requires { length items.old.next.items ≡ length self.now.darts.now + length self.now.parents.now }
        ensures alike { IsAlike blocks.old blocks.new }
        ensures numbers { length items.new.next.items ≡ length items.old.next.items }
        ensures kept { (lists : ℕ → List ℕ) → Holds items.old lists → IfOk result (λ _. HoldsBut items.new (length self.now.darts.now + length self.now.parents.now + v) lists) }
        ensures found { (edge : ℕ → ℕ → Bool) (number : ℕ → ℕ) (root k : ℕ) (P : ℕ → List Block) (lists : ℕ → List ℕ) → IsSearchTree (rooted_by edge number self.now.parents.now self.now.depths.now self.now.darts.now self.now.heights.now) root → IsState blocks.old P → IsStanding (rooted_by edge number self.now.parents.now self.now.depths.now self.now.darts.now self.now.heights.now) k (slice_index lows.now) P blocks.old.ties.items → IsNext (rooted_by edge number self.now.parents.now self.now.depths.now self.now.darts.now self.now.heights.now) k v → Holds items.old lists → ((p : ℕ) → IsStackOf (rooted_by edge number self.now.parents.now self.now.depths.now self.now.darts.now self.now.heights.now) v p → Contains (lists (length self.now.darts.now + length self.now.parents.now + v)) p) → IfOk result (λ found. AreFoundTo (rooted_by edge number self.now.parents.now self.now.depths.now self.now.darts.now self.now.heights.now) v P blocks.old.ties.items blocks.new found.items []) }
    {
        let list = self.stacks() + usize::from(v);
        let mut found = Vec::new(self.alloc);
        for _ in 0..self.stacks() {
            let Some(p) = items.pop(list) else {
                return Ok(found);
            };
            let Some(edge) = self.edge_of(blocks, lows, v, usize::from(p))? else {
                continue;
            };
            insert_nested(&mut found, edge)?;
        }
        Ok(found)
    }

    /// Puts all that returns from `v` and from below it into the stack of `v`, as the forks at `v` demand. It returns false
    /// where there are no sides that meet all forks. `items` has the stacks of the fork in the list of `v`, and `lows` for
    /// each vertex the least depth at which one of its part ends. It fails only when out of memory.
    pub(crate) fn place(
        &self,
        blocks: &mut Blocks,
        items: &mut ChainedLists,
        lows: &mut [u16],
        v: u16,
    ) -> Result<bool, AllocError>
        requires room { length self.now.darts.now + v < length blocks.old.stacks.first.items }
        requires numbers { length items.old.next.items ≡ length self.now.darts.now + length self.now.parents.now }
        ensures long { length lows.new ≡ length lows.old }
        ensures alike { IsAlike blocks.old blocks.new }
        ensures numbers { length items.new.next.items ≡ length items.old.next.items }
        ensures kept { (lists : ℕ → List ℕ) → Holds items.old lists → IfOk result (λ _. HoldsBut items.new (length self.now.darts.now + length self.now.parents.now + v) lists) }
        ensures placed { (edge : ℕ → ℕ → Bool) (number : ℕ → ℕ) (root k : ℕ) (P : ℕ → List Block) (lists : ℕ → List ℕ) → IsSearchTree (rooted_by edge number self.now.parents.now self.now.depths.now self.now.darts.now self.now.heights.now) root → IsState blocks.old P → IsStanding (rooted_by edge number self.now.parents.now self.now.depths.now self.now.darts.now self.now.heights.now) k (slice_index lows.old) P blocks.old.ties.items → IsNext (rooted_by edge number self.now.parents.now self.now.depths.now self.now.darts.now self.now.heights.now) k v → length lows.old ≡ length self.now.parents.now → Holds items.old lists → ((p : ℕ) → IsStackOf (rooted_by edge number self.now.parents.now self.now.depths.now self.now.darts.now self.now.heights.now) v p → Contains (lists (length self.now.darts.now + length self.now.parents.now + v)) p) → IfOk result (MatchPlaced (rooted_by edge number self.now.parents.now self.now.depths.now self.now.darts.now self.now.heights.now) (k + 1) lows.new blocks.new) }
    {
        let found = self.find_edges(blocks, items, lows, v)?;
        set_low(lows, v, &found);
        let placed = blocks.gather(self.heights, self.darts.len() + usize::from(v), &found);
        Ok(placed)
    }
}
