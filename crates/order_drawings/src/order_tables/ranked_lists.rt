//! `RankedList`: a vertex's neighbour list with its entries' ranks in an order, searched for earlier and later ones.
ghost use Rattle.std.specs.Prelude.{◌≡◌, ◌<◌, ◌≤◌, ℕ, length, All};
ghost use Rattle.order_drawings.specs.Rows.{rank_at};

use half_edges::Counts;

/// The list of the vertex of rank `k`, with the ranks of all vertices.
#[derive(Clone, Copy)]
pub struct RankedList<'a> {
    /// The neighbours of the vertex, clockwise.
    pub list: &'a [u16],
    /// For each vertex its rank: its index in the order.
    pub ranks: &'a Counts,
    /// The rank of the vertex itself.
    pub k: u32,
    pub ghost vertices: { All (λ u. u < length ranks.now) list.now },
}

impl RankedList<'_> {
    /// Returns the rank of entry `i`.
    #[inline(always)]
    pub fn rank(&self, i: usize) -> u32
        requires { i < length self.now.list.now }
        ensures { result ≡ rank_at self.now.list.now self.now.ranks.now i }
    {
        self.ranks.get(self.list[i] as usize)
    }

    /// Finds the first index from `from` on with an entry of rank `k` or later, or the length where there is none.
    #[inline(always)]
    pub fn first_later(&self, from: usize) -> usize
        requires { from ≤ length self.now.list.now }
        ensures from { from ≤ result }
        ensures within { result ≤ length self.now.list.now }
        ensures before { (i : ℕ) → from ≤ i → i < result → rank_at self.now.list.now self.now.ranks.now i < self.now.k }
        ensures here { result < length self.now.list.now → self.now.k ≤ rank_at self.now.list.now self.now.ranks.now result }
    {
        let ranked = *self;
        for i in from..ranked.list.len() {
            if ranked.k <= ranked.rank(i) {
                return i;
            }
        }
        ranked.list.len()
    }

    /// Finds the first index from `from` on whose entry has a rank below `k`, or the length where there is none.
    #[inline(always)]
    pub fn first_earlier(&self, from: usize) -> usize
        requires { from ≤ length self.now.list.now }
        ensures from { from ≤ result }
        ensures within { result ≤ length self.now.list.now }
        ensures before { (i : ℕ) → from ≤ i → i < result → self.now.k ≤ rank_at self.now.list.now self.now.ranks.now i }
        ensures here { result < length self.now.list.now → rank_at self.now.list.now self.now.ranks.now result < self.now.k }
    {
        let ranked = *self;
        for i in from..ranked.list.len() {
            if ranked.rank(i) < ranked.k {
                return i;
            }
        }
        ranked.list.len()
    }
}
