//! What no command prints of a number and of a name.
use trace_types::{read_comm, read_number};

#[test]
fn the_greatest_number(rt: HostRuntime) {
    assert_eq!(rt;
        read_number(b"340282366920938463463374607431768211455"),
        Some(u128::MAX)
    );
}

#[test]
fn the_bytes_of_a_name_with_a_space(rt: HostRuntime) {
    match read_comm(b"a%20b") {
        Some(comm) => assert_eq!(rt; comm.as_bytes(), b"a b".as_slice()),
        None => panic!(rt; "a name with a space"),
    }
}
