//! The block of list entries at a vertex for one of its children, and the return edges that go on above the vertex.
ghost use Rattle.std.specs.Prelude.{◌≡◌, ◌≤◌, ◌++◌, ◌∷◌, [], length, not, eqb, true, false, IfOk, OnOk};
ghost use Rattle.left_right_lists.specs.Blocks.{IsRun, uppers as uppers_of, lefts, middle, rights};

use map_lists::ItemLists;
use std::alloc::{AllocError, Global};

// Returns the first index of `ds` from `from` on at which the return edge does not end at `v`, if `ends` is set, or
// does, if it is not. Returns the length where there is none.
fn run_end(ds: &[(u16, u16)], from: usize, v: u16, ends: bool) -> usize
    requires { from ≤ length ds.now }
    ensures after { from ≤ result }
    ensures within { result ≤ length ds.now }
    ensures at { ends ≡ true → IsRun (λ d. eqb d.1 v) ds.now from result }
    ensures off { ends ≡ false → IsRun (λ d. not (eqb d.1 v)) ds.now from result }
{
    for i in from..ds.len() {
        if (ds[i].1 == v) != ends {
            return i;
        }
    }
    ds.len()
}

// Appends to `list` the lower ends of the return edges `ds`, from the last to the first.
fn push_lower_ends(list: &mut Vec<u16>, ds: &[(u16, u16)]) -> Result<(), AllocError>
    ensures { IfOk result (λ _. list.new.items ≡ list.old.items ++ uppers_of ds.now) }
{
    for i in 0..ds.len() {
        list.push(ds[ds.len() - 1 - i].0)?;
    }
    Ok(())
}

/// Appends to `list` the entries at `v` for its child `u`, from whose subtree the edges `ds` return. Before `u` and
/// after it are the lower ends of those at the front and at the back of `ds` that end at `v`, both reversed.
pub(crate) fn push_block(
    list: &mut Vec<u16>,
    ds: &[(u16, u16)],
    v: u16,
    u: u16,
) -> Result<(), AllocError>
    ensures { IfOk result (λ _. list.new.items ≡ list.old.items ++ (uppers_of (lefts v ds.now) ++ u ∷ uppers_of (rights v ds.now))) }
{
    let first = run_end(ds, 0, v, true);
    let last = run_end(ds, first, v, false);
    push_lower_ends(list, &ds[..first])?;
    list.push(u)?;
    push_lower_ends(list, &ds[last..])?;
    Ok(())
}

/// Appends to `returns` a list of those return edges among `ds`, from below one child of `v`, that end above `v`.
pub(crate) fn push_middle(
    returns: &mut ItemLists<(u16, u16)>,
    ds: &[(u16, u16)],
    v: u16,
) -> Result<(), AllocError>
    ensures { OnOk result (returns.new ≡ returns.old ++ middle v ds.now ∷ []) }
{
    let first = run_end(ds, 0, v, true);
    let last = run_end(ds, first, v, false);
    returns.push(&ds[first..last])
}
