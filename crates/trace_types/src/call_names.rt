//! What the names of system calls' events begin with, of 64 bits and of 32 bits.
ghost use Rattle.std.specs.Prelude.{◌≡◌};
ghost use Rattle.trace_types.specs.CallNames.{is_call_in, is_call_out};

/// What the names of entries into system calls begin with.
pub const CALL_ENTRY: &[u8] = b"syscall_entry_";

/// Whether an event of this name is an entry into a system call.
pub fn is_call_in(name: &[u8]) -> bool
    ensures { result ≡ is_call_in name.now }
{
    name.starts_with(CALL_ENTRY) || name.starts_with(b"compat_syscall_entry_")
}

/// Whether an event of this name is a return from a system call.
pub fn is_call_out(name: &[u8]) -> bool
    ensures { result ≡ is_call_out name.now }
{
    name.starts_with(b"syscall_exit_") || name.starts_with(b"compat_syscall_exit_")
}
