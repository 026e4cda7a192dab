//! Merges computed by hand.
use crate::hosts::{merge_three, other, receive, send};
use host_merge::Placed;
use std::process::Abort;
use std::test::Fail;

// Hosts 1 and 2 are children of 0. On its clock, host 1's times are as they are, but for 2199 in place of
// 2200; those of host 2 are 1149, 1199, 1209 and 1249.
#[test]
fn a_message_between_two_children(rt: HostRuntime) -> Result<(), Fail> {
    let first = [
        send(0, 1000, 1),
        send(0, 1100, 2),
        receive(0, 1300, 4),
        receive(0, 3101, 3),
    ];
    let second = [
        receive(1, 2000, 1),
        send(1, 2050, 5),
        send(1, 2100, 3),
        receive(1, 2200, 6),
    ];
    let third = [
        receive(2, 2000, 2),
        receive(2, 2050, 5),
        send(2, 2060, 6),
        send(2, 2100, 4),
    ];
    let outcome = merge_three(&rt, &first, &second, &third)?;
    let keys: Vec<u64> = outcome.merged.iter().map(|m| m.key).collect(rt.alloc())?;
    let expected = [
        1000, 1100, 1149, 1199, 1209, 1249, 1300, 2000, 2050, 2100, 2199, 3101,
    ];
    assert_eq!(rt; keys.as_slice(), expected.as_slice());
    let at = |send, receive| Placed { send, receive };
    let placed = [at(0, 7), at(1, 2), at(8, 3), at(9, 11), at(4, 10), at(5, 6)];
    assert_eq!(rt; outcome.placed.as_slice(), placed.as_slice());
    assert_eq!(rt; outcome.inverted.as_slice(), [2].as_slice());
    Ok(())
}

// The lower point is (1400, 900), the upper (1600, 1101): host 1 has keys 900, 1000 and 1100. Where host 0 has the same
// key, its event stands first.
#[test]
fn a_parent_first_at_one_key(rt: HostRuntime) -> Result<(), Fail> {
    let first = [send(0, 900, 1), other(0, 1000), receive(0, 1102, 2)];
    let second = [receive(1, 1400, 1), other(1, 1500), send(1, 1600, 2)];
    let outcome = merge_three(&rt, &first, &second, &[])?;
    let hosts: Vec<u32> = outcome
        .merged
        .iter()
        .map(|m| m.event.host)
        .collect(rt.alloc())?;
    let keys: Vec<u64> = outcome.merged.iter().map(|m| m.key).collect(rt.alloc())?;
    assert_eq!(rt;
        keys.as_slice(),
        [900, 900, 1000, 1000, 1100, 1102].as_slice()
    );
    assert_eq!(rt; hosts.as_slice(), [0, 1, 0, 1, 1, 0].as_slice());
    assert!(rt; outcome.inverted.is_empty());
    Ok(())
}

// No messages: three roots, by their own times. Equal times stand in the order of the hosts.
#[test]
fn hosts_that_never_talk(rt: HostRuntime) -> Result<(), Fail> {
    let outcome = merge_three(
        &rt,
        &[other(0, 5)],
        &[other(1, 3), other(1, 5)],
        &[other(2, 3)],
    )?;
    let hosts: Vec<u32> = outcome
        .merged
        .iter()
        .map(|m| m.event.host)
        .collect(rt.alloc())?;
    assert_eq!(rt; hosts.as_slice(), [1, 2, 0, 1].as_slice());
    assert!(rt; outcome.placed.is_empty());
    Ok(())
}
