//! A tree of many paths.
use attribute_tree::Attributes;
use std::alloc::AllocGlobal;
use std::process::Abort;
use std::test::Fail;
use std::thread::Threads;
use trace_types::{Path, ThreadKey, ThreadLeaf};

fn status(tid: u32) -> Path {
    Path::Thread {
        host: 0,
        thread: ThreadKey::Tid(tid),
        leaf: ThreadLeaf::Status,
    }
}

// Adds a path, which must be new.
fn add_new<R: Abort>(rt: &R, attributes: &mut Attributes, path: Path) -> Result<usize, Fail> {
    let None = attributes.find(path) else {
        panic!(rt; "a new path");
    };
    Ok(attributes.add(path)?)
}

// The statuses of the threads from 0 on, so many of them.
fn statuses<R: AllocGlobal + Threads + Sync + Abort>(
    rt: &R,
    count: u32,
) -> Result<Attributes, Fail> {
    let mut attributes = Attributes::new(rt.alloc());
    for tid in 0..count {
        add_new(rt, &mut attributes, status(tid))?;
    }
    Ok(attributes)
}

// The last of so many children of a node, where there are as many statuses.
fn last_child<R: AllocGlobal + Threads + Sync + Abort>(
    rt: &R,
    count: u32,
    node: usize,
) -> Result<Option<usize>, Fail> {
    let attributes = statuses(rt, count)?;
    let mut children = attributes.children(node);
    let mut last = None;
    for _ in 0..count {
        last = children.next();
    }
    Ok(last)
}

// The number of the last of so many statuses.
fn last_number<R: AllocGlobal + Threads + Sync + Abort>(
    rt: &R,
    count: u32,
) -> Result<Option<usize>, Fail> {
    let attributes = statuses(rt, count)?;
    Ok(attributes.find(status(count.saturating_sub(1))))
}

#[test]
fn paths_are_numbered_past_16_bits(rt: HostRuntime) -> Result<(), Fail> {
    assert_eq!(rt; last_number(&rt, 65_537)?, Some(65_536));
    Ok(())
}

// Nodes 0 to 2 are the root, the host and the host's threads. Each thread has a node and then a leaf, so that the
// thread 65,536 has node 3 + 2 * 65,536.
#[test]
fn nodes_are_linked_past_16_bits(rt: HostRuntime) -> Result<(), Fail> {
    assert_eq!(rt; last_child(&rt, 65_537, 2)?, Some(131_075));
    Ok(())
}
