//! Critical paths over windows and of threads at the edges.
use crate::lists::{list_f, list_h, list_k, list_l, list_m, list_r, list_w};
use crate::merges::path_of;
use crate::paths::{piece, thread, window};
use critical_path::What;
use std::process::Abort;
use std::test::Fail;

#[test]
fn before_the_first_event_nobody_knows(rt: HostRuntime) -> Result<(), Fail> {
    let merged = list_r();
    let Some(Ok(path)) = path_of(rt.alloc(), &merged, &[], thread(0, 10), window(0, 5)) else {
        panic!(rt; "no path");
    };
    let expected = [
        piece(0, 1, 0, 10, What::Unknown),
        piece(1, 5, 0, 10, What::Running),
    ];
    assert_eq!(rt; path.as_slice(), expected.as_slice());
    Ok(())
}

#[test]
fn a_window_before_the_first_event(rt: HostRuntime) -> Result<(), Fail> {
    let merged = list_r();
    let Some(Ok(path)) = path_of(rt.alloc(), &merged, &[], thread(0, 10), window(0, 1)) else {
        panic!(rt; "no path");
    };
    let expected = [piece(0, 1, 0, 10, What::Unknown)];
    assert_eq!(rt; path.as_slice(), expected.as_slice());
    Ok(())
}

#[test]
fn past_the_last_event_a_state_stays(rt: HostRuntime) -> Result<(), Fail> {
    let merged = list_l();
    let Some(Ok(path)) = path_of(rt.alloc(), &merged, &[], thread(0, 10), window(40, 50)) else {
        panic!(rt; "no path");
    };
    let expected = [piece(40, 50, 0, 10, What::Waiting)];
    assert_eq!(rt; path.as_slice(), expected.as_slice());
    Ok(())
}

#[test]
fn a_window_of_one_nanosecond(rt: HostRuntime) -> Result<(), Fail> {
    let merged = list_r();
    let Some(Ok(path)) = path_of(rt.alloc(), &merged, &[], thread(0, 10), window(14, 15)) else {
        panic!(rt; "no path");
    };
    let expected = [piece(14, 15, 0, 12, What::Running)];
    assert_eq!(rt; path.as_slice(), expected.as_slice());
    Ok(())
}

#[test]
fn a_thread_that_never_ran(rt: HostRuntime) -> Result<(), Fail> {
    let merged = list_w();
    let Some(Ok(path)) = path_of(rt.alloc(), &merged, &[], thread(0, 30), window(0, 10)) else {
        panic!(rt; "no path");
    };
    let expected = [
        piece(0, 5, 0, 30, What::Unknown),
        piece(5, 10, 0, 30, What::Waiting),
    ];
    assert_eq!(rt; path.as_slice(), expected.as_slice());
    Ok(())
}

#[test]
fn a_thread_that_is_made_in_the_window(rt: HostRuntime) -> Result<(), Fail> {
    let merged = list_f();
    let Some(Ok(path)) = path_of(rt.alloc(), &merged, &[], thread(0, 31), window(0, 12)) else {
        panic!(rt; "no path");
    };
    let expected = [
        piece(0, 4, 0, 31, What::Unknown),
        piece(4, 6, 0, 31, What::Waiting),
        piece(6, 9, 0, 31, What::Running),
        piece(9, 12, 0, 31, What::Unknown),
    ];
    assert_eq!(rt; path.as_slice(), expected.as_slice());
    Ok(())
}

#[test]
fn a_tid_on_one_host(rt: HostRuntime) -> Result<(), Fail> {
    let merged = list_h();
    let Some(Ok(path)) = path_of(rt.alloc(), &merged, &[], thread(0, 10), window(3, 8)) else {
        panic!(rt; "no path");
    };
    let expected = [
        piece(3, 5, 0, 10, What::Running),
        piece(5, 8, 0, 10, What::Unknown),
    ];
    assert_eq!(rt; path.as_slice(), expected.as_slice());
    Ok(())
}

#[test]
fn the_same_tid_on_another_host(rt: HostRuntime) -> Result<(), Fail> {
    let merged = list_h();
    let Some(Ok(path)) = path_of(rt.alloc(), &merged, &[], thread(1, 10), window(3, 8)) else {
        panic!(rt; "no path");
    };
    let expected = [piece(3, 8, 1, 10, What::Running)];
    assert_eq!(rt; path.as_slice(), expected.as_slice());
    Ok(())
}

#[test]
fn events_lost_inside_a_wait(rt: HostRuntime) -> Result<(), Fail> {
    let merged = list_m();
    let Some(Ok(path)) = path_of(rt.alloc(), &merged, &[], thread(0, 10), window(5, 25)) else {
        panic!(rt; "no path");
    };
    let expected = [
        piece(5, 10, 0, 10, What::Running),
        piece(10, 17, 0, 12, What::Unknown),
        piece(17, 20, 0, 12, What::Running),
        piece(20, 25, 0, 10, What::Waiting),
    ];
    assert_eq!(rt; path.as_slice(), expected.as_slice());
    Ok(())
}

#[test]
fn events_lost_while_a_thread_runs(rt: HostRuntime) -> Result<(), Fail> {
    let merged = list_m();
    let Some(Ok(path)) = path_of(rt.alloc(), &merged, &[], thread(0, 11), window(5, 18)) else {
        panic!(rt; "no path");
    };
    let expected = [
        piece(5, 15, 0, 11, What::Running),
        piece(15, 17, 0, 11, What::Unknown),
        piece(17, 18, 0, 11, What::Waiting),
    ];
    assert_eq!(rt; path.as_slice(), expected.as_slice());
    Ok(())
}

#[test]
fn events_lost_where_the_waker_ran(rt: HostRuntime) -> Result<(), Fail> {
    let merged = list_k();
    let Some(Ok(path)) = path_of(rt.alloc(), &merged, &[], thread(0, 10), window(5, 25)) else {
        panic!(rt; "no path");
    };
    let expected = [
        piece(5, 10, 0, 10, What::Running),
        piece(10, 20, 0, 10, What::Nobody),
        piece(20, 25, 0, 10, What::Running),
    ];
    assert_eq!(rt; path.as_slice(), expected.as_slice());
    Ok(())
}
