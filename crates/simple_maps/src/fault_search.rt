//! Searches for the first fault of rotation lists: a number out of range, a loop, a repeated entry.
ghost use Rattle.std.specs.Prelude.{◌≡◌, ◌+◌, ◌<◌, ◌==◌, length, nat_le, All, Some, None, IfOk, MatchOption};
ghost use Rattle.std.specs.List.{list_any};
ghost use Rattle.simple_maps.specs.Faults.{lesser_of, least_where, first_from, least_out_of_range, own_number, least_repeated};

use map_lists::Rotations;
use std::alloc::{AllocError, Global};

// Returns the lesser of `u` and `least`, the least number so far, if there is one.
pub(crate) fn lesser(least: Option<u16>, u: u16) -> Option<u16>
    ensures { result ≡ lesser_of least (Some u) }
{
    match least {
        None => Some(u),
        Some(w) => Some(w.min(u)),
    }
}

// Returns the least number of `list` that is not below `n`, or `None`.
fn least_beyond(list: &[u16], n: usize) -> Option<u16>
    ensures { result ≡ least_where (nat_le n) list.now }
{
    let mut least = None;
    for u in list {
        if n <= *u as usize {
            least = lesser(least, *u);
        }
    }
    least
}

// Returns the first vertex of `lists` whose list holds a number that is no vertex, with the least such, or `None`.
pub(crate) fn first_out_of_range(lists: &Rotations) -> Option<(u16, u16)>
    ensures { result ≡ first_from (least_out_of_range (length lists.now)) 0 lists.now }
{
    for v in 0..lists.len() {
        if let Some(u) = least_beyond(lists.list(v), lists.len()) {
            return Some((v as u16, u));
        }
    }
    None
}

// Says whether `list` holds `u`.
pub(crate) fn holds(list: &[u16], u: u16) -> bool
    ensures { result ≡ list_any (λ w. w == u) list.now }
{
    list.contains(&u)
}

// Returns the first vertex of `lists` whose list holds itself, or `None`.
pub(crate) fn first_loop(lists: &Rotations) -> Option<u16>
    ensures { MatchOption result (first_from own_number 0 lists.now ≡ None)
        (λ v. first_from own_number 0 lists.now ≡ Some (v, v)) }
{
    for v in 0..lists.len() {
        let own = v as u16;
        if holds(lists.list(v), own) {
            return Some(own);
        }
    }
    None
}

// Returns the least number that is in `list` twice, or `None`. `marks` has an entry for each vertex, below `mark`; that
// of each number in `list` becomes `mark`.
fn least_twice(marks: &mut [u16], mark: u16, list: &[u16]) -> Option<u16>
    requires within { All (λ u. u < length marks.old) list.now }
    requires fresh { All (λ m. m < mark) marks.old }
    ensures least { result ≡ least_repeated 0 list.now }
    ensures marks { All (λ m. m < mark + 1) marks.new }
{
    let mut twice = None;
    for u in list {
        if marks[*u as usize] == mark {
            twice = lesser(twice, *u);
        } else {
            marks[*u as usize] = mark;
        }
    }
    twice
}

// Returns the first vertex of `lists` whose list holds a number twice, with the least such number, or `None`. It fails
// only when out of memory.
pub(crate) fn first_repeated(
    alloc: Global,
    lists: &Rotations,
) -> Result<Option<(u16, u16)>, AllocError>
    requires in_range { first_from (least_out_of_range (length lists.now)) 0 lists.now ≡ None }
    ensures { IfOk result (λ found. found ≡ first_from least_repeated 0 lists.now) }
{
    // for each number the vertex after the last one whose list held it, or 0
    let mut marks = vec![in alloc; 0; lists.len()]?;
    for v in 0..lists.len() {
        if let Some(u) = least_twice(&mut marks, v as u16 + 1, lists.list(v)) {
            return Ok(Some((v as u16, u)));
        }
    }
    Ok(None)
}
