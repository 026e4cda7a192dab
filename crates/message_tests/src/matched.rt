//! Segments that are matched.
use crate::traffic::{assert_matches, key, other, receive, send};
use message_match::Message;
use std::alloc::AllocGlobal;
use std::process::Abort;
use std::test::Fail;
use trace_types::{Event, SegKey};

#[test]
fn one_segment(rt: HostRuntime) -> Result<(), Fail> {
    let first = [other(5), send(7, key(1)), other(8)];
    let third = [receive(3, key(1))];
    let message = Message {
        sent: 7,
        received: 3,
        from: 0,
        send: 1,
        to: 2,
        receive: 0,
    };
    assert_matches(&rt, &first, &[], &third, &[message], 0)
}

// A key that was sent thrice and received twice: the first send and the first receive.
#[test]
fn first_with_first(rt: HostRuntime) -> Result<(), Fail> {
    let first = [other(1), receive(20, key(1)), receive(21, key(1))];
    let second = [
        send(10, key(1)),
        send(11, key(1)),
        other(12),
        send(13, key(1)),
    ];
    let message = Message {
        sent: 10,
        received: 20,
        from: 1,
        send: 0,
        to: 0,
        receive: 1,
    };
    assert_matches(&rt, &first, &second, &[], &[message], 0)
}

// Each host's receives stand before its sends, and the third host receives in the other order.
#[test]
fn in_the_order_of_the_sends(rt: HostRuntime) -> Result<(), Fail> {
    let first = [receive(90, key(4)), send(50, key(1)), send(51, key(2))];
    let second = [receive(30, key(2)), send(40, key(3)), send(41, key(4))];
    let third = [receive(70, key(3)), receive(71, key(1))];
    let message = |sent, received, from, send, to, receive| Message {
        sent,
        received,
        from,
        send,
        to,
        receive,
    };
    let matched = [
        message(50, 71, 0, 1, 2, 1),
        message(51, 30, 0, 2, 1, 0),
        message(40, 70, 1, 1, 2, 0),
        message(41, 90, 1, 2, 0, 0),
    ];
    assert_matches(&rt, &first, &second, &third, &matched, 0)
}

// Two keys that differ in one field, one of which is received.
fn assert_apart(rt: &(impl Abort + AllocGlobal), other_key: SegKey) -> Result<(), Fail> {
    let first: [Event; 2] = [send(1, key(0)), send(2, other_key)];
    let second: [Event; 1] = [receive(3, other_key)];
    let message = Message {
        sent: 2,
        received: 3,
        from: 0,
        send: 1,
        to: 1,
        receive: 0,
    };
    assert_matches(rt, &first, &second, &[], &[message], 0)
}

#[test]
fn keys_that_differ_in_an_address(rt: HostRuntime) -> Result<(), Fail> {
    assert_apart(
        &rt,
        SegKey {
            saddr: 11,
            ..key(0)
        },
    )?;
    assert_apart(
        &rt,
        SegKey {
            daddr: 1 << 127,
            ..key(0)
        },
    )
}

#[test]
fn keys_that_differ_in_a_number(rt: HostRuntime) -> Result<(), Fail> {
    assert_apart(&rt, SegKey { seq: 1, ..key(0) })?;
    assert_apart(
        &rt,
        SegKey {
            ack_seq: 31,
            ..key(0)
        },
    )
}

#[test]
fn keys_that_differ_in_a_port_or_in_flags(rt: HostRuntime) -> Result<(), Fail> {
    assert_apart(
        &rt,
        SegKey {
            source_port: 41,
            ..key(0)
        },
    )?;
    assert_apart(
        &rt,
        SegKey {
            dest_port: 51,
            ..key(0)
        },
    )?;
    assert_apart(
        &rt,
        SegKey {
            flags: 61,
            ..key(0)
        },
    )
}
