//! What an attribute holds.
use crate::Comm;

/// An attribute's value. On a Status path, `Int` is one of `thread_status`. `Call` is the place of a system call's event name in its host's names.
#[derive(Clone, Copy, Debug, PartialEq, Eq)]
pub enum Value {
    Null,
    Int(i64),
    Comm(Comm),
    Call(u32),
}
