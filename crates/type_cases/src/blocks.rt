//! Test cases of chained lists, of blocks of return edges, and of their sides.
use chained_lists::ChainedLists;
use left_right_blocks::{Blocks, ForkEdge};
use left_right_sides::sides;
use std::test::Fail;

// Tests that numbers come out of joined lists in order, and that what was taken can be put before others.
#[test]
fn lists_are_joined(rt: HostRuntime) -> Result<(), Fail> {
    let mut lists = ChainedLists::new(rt.alloc(), 4, 1)?;
    lists.join(4, 2);
    lists.join(4, 0);
    lists.join(4, 3);
    assert!(rt; lists.first(2).is_none() && lists.first(4) == Some(2));
    assert!(rt; lists.pop(4) == Some(2) && lists.pop(4) == Some(0));
    assert!(rt; lists.pop(1) == Some(1));
    assert!(rt; lists.first(4) == Some(3) && lists.pop(4) == Some(3) && lists.pop(4).is_none());
    Ok(())
}

// Returns an edge of a fork.
fn edge(stack: usize, low: u16, mixed: bool) -> ForkEdge {
    ForkEdge { stack, low, mixed }
}

// Tests the sides of three edges, which end at depths 0, 2 and 1. The first two return by one edge of a vertex and the
// third by another, so the second and the third are on different sides.
#[test]
fn forks_part_edges(rt: HostRuntime) -> Result<(), Fail> {
    let heights = [0, 2, 1];
    let mut blocks = Blocks::new(rt.alloc(), 3, 2)?;
    assert!(rt; blocks.gather(&heights, 3, &[edge(0, 0, false), edge(1, 2, false)]));
    assert!(rt; blocks.gather(&heights, 4, &[edge(3, 0, true), edge(2, 1, false)]));
    assert!(rt; blocks.deepest(&heights, 4) == Some(2));
    blocks.trim(&heights, 4, 2)?;
    assert!(rt; blocks.deepest(&heights, 4) == Some(1));
    blocks.trim(&heights, 4, 0)?;
    assert!(rt; blocks.deepest(&heights, 4).is_none());
    let sides = blocks.sides(rt.alloc())?;
    assert!(rt; sides.as_slice() == [true, false, true].as_slice());
    Ok(())
}

// Tests the sides of the edges of a path through five vertices and three more edges, of which two cross where both are on
// one side, and that ten edges of these vertices have no sides.
#[test]
fn edges_have_sides(rt: HostRuntime) -> Result<(), Fail> {
    let parents = [0, 0, 1, 2, 3];
    let order = [0, 1, 2, 3, 4];
    let some = [(1, 0), (2, 1), (3, 2), (4, 3), (3, 1), (4, 0), (4, 2)];
    let found = sides(rt.alloc(), &parents, &order, &some, &order)?;
    assert!(rt; found.is_some());
    if let Some(list) = found {
        assert!(rt; list.len() == 7 && list[4] != list[6]);
    }
    let all = [
        (1, 0),
        (2, 0),
        (2, 1),
        (3, 0),
        (3, 1),
        (3, 2),
        (4, 0),
        (4, 1),
        (4, 2),
        (4, 3),
    ];
    let none = sides(rt.alloc(), &parents, &order, &all, &order)?;
    assert!(rt; none.is_none());
    Ok(())
}
