//! Graphs computed by hand.
use crate::lists::{list_n, list_r};
use crate::merges::graph_of;
use host_merge::Placed;
use std::process::Abort;
use std::test::Fail;
use wait_graph::{Link, ThreadState};

#[test]
fn threads_that_wake_one_another(rt: HostRuntime) -> Result<(), Fail> {
    let merged = list_r();
    let Some(waits) = graph_of(rt.alloc(), &merged, &[]) else {
        panic!(rt; "no graph");
    };
    let Some(number) = waits.segment(0, 10, 3) else {
        panic!(rt; "no stretch");
    };
    let vertex = waits.vertex(number);
    assert_eq!(rt; vertex.start, 3);
    assert_eq!(rt; vertex.state, ThreadState::Blocked);
    assert_eq!(rt; vertex.end, Some(7));
    assert_eq!(rt; vertex.link, Link::Thread { host: 0, tid: 11 });
    assert_eq!(rt; waits.first_wake(0, 11), Some(number));
    assert_eq!(rt; vertex.wake_next, None);
    let Some(first) = waits.first_wake(0, 12) else {
        panic!(rt; "no wait for 12");
    };
    let vertex = waits.vertex(first);
    assert_eq!(rt; (vertex.host, vertex.tid, vertex.start), (0, 11, 4));
    assert_eq!(rt; vertex.end, Some(5));
    assert_eq!(rt; waits.place_at(0), None);
    assert_eq!(rt; waits.place_at(1), Some(0));
    assert_eq!(rt; waits.place_at(15), Some(6));
    assert_eq!(rt; waits.place_at(19), Some(6));
    assert_eq!(rt; waits.place_at(25), Some(8));
    assert!(rt; waits.names(0, 10));
    assert!(rt; !waits.names(0, 99));
    assert!(rt; !waits.names(1, 10));
    Ok(())
}

#[test]
fn a_message_wakes_a_thread(rt: HostRuntime) -> Result<(), Fail> {
    let merged = list_n();
    let placed = [Placed {
        send: 3,
        receive: 5,
    }];
    let Some(waits) = graph_of(rt.alloc(), &merged, &placed) else {
        panic!(rt; "no graph");
    };
    let Some(number) = waits.segment(0, 10, 2) else {
        panic!(rt; "no stretch");
    };
    let vertex = waits.vertex(number);
    assert_eq!(rt; vertex.end, Some(6));
    assert_eq!(rt;
        vertex.link,
        Link::Net {
            host: 1,
            tid: 20,
            send: 3
        }
    );
    Ok(())
}

#[test]
fn no_message_an_interrupt(rt: HostRuntime) -> Result<(), Fail> {
    let merged = list_n();
    let Some(waits) = graph_of(rt.alloc(), &merged, &[]) else {
        panic!(rt; "no graph");
    };
    let Some(number) = waits.segment(0, 10, 2) else {
        panic!(rt; "no stretch");
    };
    let vertex = waits.vertex(number);
    assert_eq!(rt; vertex.link, Link::Interrupt);
    Ok(())
}
