//! Relative sides of oriented darts settled to left or right, and the darts of a vertex put in the order of rotation.
use crate::fixed_tables::{MANY_DARTS, NONE};
use crate::search_tables::Search;

// Settles (makes absolute) in `search` the sides of `dart` and of all darts on the chain to which it is relative.
// Returns the side of `dart`: 0 right, 1 left.
fn settle_all_of(search: &mut Search, dart: u32) -> u32 {
    let mut whole = search.side.get(dart);
    let mut next = search.reference.get(dart);
    for _ in 0..MANY_DARTS {
        if next == NONE {
            break;
        }
        whole = whole ^ search.side.get(next);
        next = search.reference.get(next);
    }
    let mut dart = dart;
    let mut side = whole;
    for _ in 0..MANY_DARTS {
        let next = search.reference.get(dart);
        if next == NONE {
            break;
        }
        let own = search.side.get(dart);
        search.side.set(dart, side);
        search.reference.set(dart, NONE);
        side = side ^ own;
        dart = next;
    }
    whole
}

// Settles (makes absolute) the side of `dart` in `search`, in one step where it is relative to a settled one. Returns
// it: 0 right, 1 left.
#[inline(always)]
fn settle(search: &mut Search, dart: u32) -> u32 {
    let next = search.reference.get(dart);
    let own = search.side.get(dart);
    if next == NONE {
        return own;
    }
    if search.reference.get(next) != NONE {
        return settle_all_of(search, dart);
    }
    let side = own ^ search.side.get(next);
    search.side.set(dart, side);
    search.reference.set(dart, NONE);
    side
}

/// Settles (makes absolute) in `search` the sides of the darts that leave `vertex`, and chains them in the order of
/// rotation. Left ones come by falling nesting depth, then right ones by rising depth. Returns the first, or NONE.
#[inline(always)]
pub fn settle_leaving(search: &mut Search, vertex: u32) -> u32 {
    let mut first = search.leaving.get(vertex);
    if first == NONE {
        return NONE;
    }
    let mut last = first;
    let mut dart = search.chain.get(first);
    settle(search, first);
    for _ in 0..MANY_DARTS {
        if dart == NONE {
            break;
        }
        let next = search.chain.get(dart);
        if settle(search, dart) == 1 {
            search.chain.set(dart, first);
            first = dart;
        } else {
            search.chain.set(last, dart);
            last = dart;
        }
        dart = next;
    }
    search.chain.set(last, NONE);
    first
}
