//! Segments that aren't matched.
use crate::traffic::{assert_matches, key, receive, send};
use message_match::matches;
use std::test::Fail;

#[test]
fn sent_by_two_hosts(rt: HostRuntime) -> Result<(), Fail> {
    let first = [send(1, key(1))];
    let second = [send(2, key(1))];
    let third = [receive(3, key(1))];
    assert_matches(&rt, &first, &second, &third, &[], 1)
}

#[test]
fn received_by_two_hosts(rt: HostRuntime) -> Result<(), Fail> {
    let first = [receive(1, key(1))];
    let second = [send(2, key(1))];
    let third = [receive(3, key(1)), receive(4, key(1))];
    assert_matches(&rt, &first, &second, &third, &[], 1)
}

#[test]
fn of_a_host_with_itself(rt: HostRuntime) -> Result<(), Fail> {
    let second = [
        send(2, key(1)),
        receive(3, key(1)),
        send(4, key(2)),
        receive(5, key(2)),
    ];
    assert_matches(&rt, &[], &second, &[], &[], 2)
}

// Its own host received it, too: once as the first receiver, and once as the second.
#[test]
fn received_by_its_sender_too(rt: HostRuntime) -> Result<(), Fail> {
    let first = [send(2, key(1)), receive(3, key(1)), receive(4, key(2))];
    let second = [receive(5, key(1)), send(6, key(2)), receive(7, key(2))];
    assert_matches(&rt, &first, &second, &[], &[], 2)
}

#[test]
fn only_sent_or_only_received(rt: HostRuntime) -> Result<(), Fail> {
    let first = [send(1, key(1)), send(2, key(2))];
    let second = [send(3, key(2)), receive(4, key(3))];
    let third = [receive(5, key(3)), receive(6, key(4))];
    assert_matches(&rt, &first, &second, &third, &[], 0)
}

#[test]
fn no_host(rt: HostRuntime) -> Result<(), Fail> {
    let found = matches(rt.alloc(), &[])?;
    assert!(rt; found.matched.is_empty());
    assert_eq!(rt; found.ambiguous, 0);
    Ok(())
}
