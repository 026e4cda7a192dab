//! Forests of clusters by which hosts talk to each other.
use crate::exchanges::parents_by;
use std::process::Abort;
use std::test::Fail;

#[test]
fn no_hosts(rt: HostRuntime) -> Result<(), Fail> {
    let parents = parents_by(&rt, 0, &[])?;
    assert!(rt; parents.is_empty());
    Ok(())
}

#[test]
fn two_halves(rt: HostRuntime) -> Result<(), Fail> {
    let parents = parents_by(&rt, 4, &[(0, 3), (2, 1)])?;
    assert!(rt; parents.as_slice() == [None, None, Some(1), Some(0)].as_slice());
    Ok(())
}

#[test]
fn a_host_without_messages(rt: HostRuntime) -> Result<(), Fail> {
    let parents = parents_by(&rt, 3, &[(0, 2)])?;
    assert!(rt; parents.as_slice() == [None, None, Some(0)].as_slice());
    Ok(())
}

// Host 4 is found under 1 before 3 is under 2, and yet the least of them is the parent of 5.
#[test]
fn the_least_of_a_level(rt: HostRuntime) -> Result<(), Fail> {
    let parents = parents_by(&rt, 6, &[(0, 1), (0, 2), (1, 4), (2, 3), (4, 5), (3, 5)])?;
    assert!(rt;
        parents.as_slice() == [None, Some(0), Some(0), Some(2), Some(1), Some(3)].as_slice()
    );
    Ok(())
}

// The last host of the chain comes first: 0, 63, 62, ..
#[test]
fn a_chain_of_64(rt: HostRuntime) -> Result<(), Fail> {
    let mut pairs = [(0u32, 63u32); 63];
    for (place, pair) in pairs.iter_mut().enumerate() {
        let lower = place as u32 + 1;
        *pair = (lower, (lower + 1) % 64);
    }
    let parents = parents_by(&rt, 64, &pairs)?;
    assert!(rt; parents.len() == 64);
    for host in 1..63 {
        assert!(rt; parents[host] == Some(host as u32 + 1));
    }
    assert!(rt; parents[0].is_none() && parents[63] == Some(0));
    Ok(())
}
