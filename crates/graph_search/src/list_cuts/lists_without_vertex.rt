//! Rotation lists with one vertex isolated: it leaves all lists, and its own list is empty.
ghost use Rattle.std.specs.Prelude.{◌≡◌, ◌<◌, ◌==◌, ◌++◌, ◌∷◌, [], List, ℕ, not, length, IfOk};
ghost use Rattle.std.specs.List.{filter};
ghost use Rattle.graph_search.specs.Without.{list_without, IsWithoutVertex};

use map_lists::{ItemLists, Rotations};
use std::alloc::{AllocError, Global};

// Appends the entry `w` to the last list of `rest`, unless it is `u`.
fn append_other(rest: &mut ItemLists<u16>, w: u16, u: u16) -> Result<(), AllocError>
    requires { 0 < length rest.old }
    ensures { IfOk result (λ _. (before : List (List ℕ)) (last : List ℕ) → rest.old ≡ before ++ last ∷ [] → rest.new ≡ before ++ (last ++ filter (λ x. not (x == u)) (w ∷ [])) ∷ []) }
{
    if w == u { Ok(()) } else { rest.append(w) }
}

// Appends to `rest` the `list` of vertex `v` without the entry `u`, or an empty list if `v` is `u`.
fn push_without(rest: &mut ItemLists<u16>, list: &[u16], v: u16, u: u16) -> Result<(), AllocError>
    ensures { IfOk result (λ _. rest.new ≡ rest.old ++ list_without u v list.now ∷ []) }
{
    rest.open()?;
    if v == u {
        return Ok(());
    }
    for w in list {
        append_other(rest, *w, u)?;
    }
    Ok(())
}

/// Returns `lists` with vertex `u` isolated: it is in no list, and its own is empty. Fails only when out of memory.
pub(crate) fn lists_without(
    alloc: Global,
    lists: &Rotations,
    u: u16,
) -> Result<Rotations, AllocError>
    ensures { IfOk result (λ rest. IsWithoutVertex lists.now rest u) }
{
    let mut rest = ItemLists::new(alloc);
    for v in 0..lists.len() {
        push_without(&mut rest, lists.list(v), v as u16, u)?;
    }
    Ok(Rotations::from_lists(rest))
}
