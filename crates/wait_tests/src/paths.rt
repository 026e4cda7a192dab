//! Critical paths computed by hand.
use crate::lists::{list_l, list_n, list_r};
use crate::merges::{Thread, Window, path_of};
use critical_path::{PathError, PathPiece, What};
use host_merge::Placed;
use std::process::Abort;
use std::test::Fail;

pub fn piece(from: u64, to: u64, host: u32, tid: u32, what: What) -> PathPiece {
    PathPiece {
        from,
        to,
        host,
        tid,
        what,
    }
}

pub fn thread(host: u32, tid: u32) -> Thread {
    Thread { host, tid }
}

pub fn window(from: u64, to: u64) -> Window {
    Window { from, to }
}

#[test]
fn threads_that_wake_one_another(rt: HostRuntime) -> Result<(), Fail> {
    let merged = list_r();
    let Some(Ok(path)) = path_of(rt.alloc(), &merged, &[], thread(0, 10), window(5, 25)) else {
        panic!(rt; "no path");
    };
    let expected = [
        piece(5, 10, 0, 10, What::Running),
        piece(10, 12, 0, 11, What::Running),
        piece(12, 15, 0, 12, What::Running),
        piece(15, 20, 0, 11, What::Running),
        piece(20, 25, 0, 10, What::Running),
    ];
    assert_eq!(rt; path.as_slice(), expected.as_slice());
    Ok(())
}

#[test]
fn no_path_of_a_thread_that_is_not_there(rt: HostRuntime) -> Result<(), Fail> {
    let Some(Err(error)) = path_of(rt.alloc(), &list_r(), &[], thread(0, 99), window(5, 25)) else {
        panic!(rt; "a path of a thread that isn't there");
    };
    assert_eq!(rt; error, PathError::NoThread);
    Ok(())
}

#[test]
fn a_message_wakes_a_thread(rt: HostRuntime) -> Result<(), Fail> {
    let merged = list_n();
    let placed = [Placed {
        send: 3,
        receive: 5,
    }];
    let Some(Ok(path)) = path_of(rt.alloc(), &merged, &placed, thread(0, 10), window(5, 25)) else {
        panic!(rt; "no path");
    };
    let expected = [
        piece(5, 10, 0, 10, What::Running),
        piece(10, 14, 1, 20, What::Running),
        piece(14, 19, 0, 10, What::Transit),
        piece(19, 20, 0, 10, What::Waiting),
        piece(20, 25, 0, 10, What::Running),
    ];
    assert_eq!(rt; path.as_slice(), expected.as_slice());
    Ok(())
}

#[test]
fn a_waker_is_followed_up_to_its_wake(rt: HostRuntime) -> Result<(), Fail> {
    let merged = list_l();
    let Some(Ok(path)) = path_of(rt.alloc(), &merged, &[], thread(0, 10), window(5, 25)) else {
        panic!(rt; "no path");
    };
    let expected = [
        piece(5, 10, 0, 10, What::Running),
        piece(10, 12, 0, 11, What::Running),
        piece(12, 20, 0, 11, What::Unknown),
        piece(20, 25, 0, 10, What::Waiting),
    ];
    assert_eq!(rt; path.as_slice(), expected.as_slice());
    Ok(())
}
