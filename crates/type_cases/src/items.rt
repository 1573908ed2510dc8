//! Test cases of lists: items, points and whole lists come back as they were pushed.
use map_lists::{Counts, EdgeList, Ends, ItemLists, PathList, Rotations, VertexId, VertexList};
use pg_plane::{Ints, Point, Points};
use std::test::Fail;

// Tests that lists of counts, vertices and edges return the items that were pushed.
#[test]
fn items_come_back_by_value(rt: HostRuntime) -> Result<(), Fail> {
    let mut counts = Counts::new(rt.alloc());
    assert!(rt; counts.len() == 0);
    counts.push(7)?;
    assert!(rt; counts.len() == 1 && counts.get(0) == 7);
    let mut vertices = VertexList::new(rt.alloc());
    vertices.push(VertexId(3))?;
    assert!(rt; vertices.len() == 1 && vertices.get(0).0 == 3);
    let edge = Ends {
        a: VertexId(3),
        b: VertexId(4),
    };
    let mut edges = EdgeList::new(rt.alloc());
    edges.push(edge)?;
    assert!(rt; edges.len() == 1 && edges.get(0) == edge);
    Ok(())
}

// Tests that lists of points and of whole numbers return the items that were pushed.
#[test]
fn points_and_whole_numbers_come_back(rt: HostRuntime) -> Result<(), Fail> {
    let point = Point { x: 3, y: -4 };
    let mut points = Points::new(rt.alloc());
    points.push(point)?;
    assert!(rt; points.len() == 1 && points.get(0) == point);
    let mut numbers = Ints::new(rt.alloc());
    numbers.push(-7)?;
    assert!(rt; numbers.len() == 1 && numbers.get(0) == -7);
    Ok(())
}

// Tests that lists of lists return the lists that were pushed, also an empty one.
#[test]
fn lists_come_back_whole(rt: HostRuntime) -> Result<(), Fail> {
    let mut paths = PathList::new(rt.alloc());
    paths.push(&[])?;
    paths.push(&[VertexId(1), VertexId(0)])?;
    assert!(rt; paths.len() == 2 && paths.total() == 2);
    assert!(rt; paths.list(1) == [VertexId(1), VertexId(0)].as_slice());
    Ok(())
}

// Tests lists of lists that are opened, appended to, truncated and taken apart.
#[test]
fn lists_grow_by_entries(rt: HostRuntime) -> Result<(), Fail> {
    let mut lists = ItemLists::<u16>::new(rt.alloc());
    lists.push(&[4])?;
    lists.open()?;
    lists.append(1)?;
    lists.append(2)?;
    lists.open()?;
    assert!(rt; lists.entries() == [4, 1, 2].as_slice());
    assert!(rt; lists.ends() == [1, 3, 3].as_slice());
    lists.truncate(2);
    lists.append(5)?;
    assert!(rt; lists.list(1) == [1, 2, 5].as_slice());
    let (entries, ends) = lists.into_parts();
    assert!(rt; entries.as_slice() == [4, 1, 2, 5].as_slice());
    assert!(rt; ends.as_slice() == [1, 4].as_slice());
    Ok(())
}

// Tests that rotation lists return the lists that were pushed, also an empty one.
#[test]
fn rotation_lists_come_back(rt: HostRuntime) -> Result<(), Fail> {
    let mut lists = Rotations::new(rt.alloc());
    lists.push(&[])?;
    lists.push(&[2, 0])?;
    assert!(rt; lists.len() == 2 && lists.total() == 2);
    assert!(rt; lists.list(0) == [].as_slice() && lists.list(1) == [2, 0].as_slice());
    Ok(())
}

// Tests rotation lists made of their entries and ends, and emptied.
#[test]
fn parts_make_lists(rt: HostRuntime) -> Result<(), Fail> {
    let entries = vec![in rt.alloc(); 4, 1, 2]?;
    let ends = vec![in rt.alloc(); 1, 3]?;
    let mut lists = Rotations::from_parts(entries, ends);
    assert!(rt; lists.len() == 2 && lists.total() == 3);
    lists.clear();
    assert!(rt; lists.len() == 0 && lists.total() == 0);
    Ok(())
}
