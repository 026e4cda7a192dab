//! What is made to happen, in order.
ghost use Rattle.std.specs.Prelude.{◌≡◌, ◌≤◌, ◌<◌, ◌*◌, ◌-◌, ◌^◌, All, IfOk, OnOk, length, ◌++◌};
ghost use Rattle.trace_gen.specs.Acts.{IsOfHosts, acts_of, exchange, partner, round};

use std::alloc::Global;
use trace_types::OutOfMemory;

/// A switch of threads on a host, or the sending or receiving of a message from one host to another.
#[derive(Clone, Copy, Debug)]
pub enum Act {
    Switch { host: u8 },
    Send { message: u32, from: u8, to: u8 },
    Receive { message: u32, from: u8, to: u8 },
}

/// The acts of so many rounds on 1 to 64 hosts. The only error is lack of memory.
pub fn acts_of(alloc: Global, hosts: u8, rounds: u32) -> Result<Vec<Act>, OutOfMemory>
    requires some { 1 ≤ hosts }
    requires few { hosts ≤ 64 }
    requires rounds { rounds ≤ 100000 }
    ensures acts { IfOk result (λ acts. acts.items ≡ acts_of hosts rounds) }
    ensures hosts { IfOk result (λ acts. All IsOfHosts acts.items) }
    ensures length { IfOk result (λ acts. length acts.items ≤ 6 * rounds) }
{
    let mut acts = Vec::new(alloc);
    for j in 0..rounds {
        add_round(hosts, j, &mut acts)?;
    }
    Ok(acts)
}

// Adds the acts of a round.
fn add_round(hosts: u8, j: u32, acts: &mut Vec<Act>) -> Result<(), OutOfMemory>
    requires some { 1 ≤ hosts }
    requires few { hosts ≤ 64 }
    requires rounds { j < 100000 }
    ensures acts { OnOk result (acts.new.items ≡ acts.old.items ++ round hosts j) }
{
    if hosts == 1 {
        acts.extend_from_slice(&[Act::Switch { host: 0 }, Act::Switch { host: 0 }])?;
    } else {
        acts.extend_from_slice(&exchange(partner(hosts, j), 2 * j))?;
    }
    Ok(())
}

// The host that host 0 speaks to in a round.
fn partner(hosts: u8, j: u32) -> u8
    requires { 1 < hosts }
    ensures is { result ≡ partner hosts j }
    ensures within { result < hosts }
{
    1 + (j % (u32::from(hosts) - 1)) as u8
}

// A round of two hosts that send one message each, of this number and the one after it.
fn exchange(k: u8, message: u32) -> [Act; 6]
    requires { message < 2 ^ 32 - 1 }
    ensures { result ≡ exchange k message }
{
    let answer = message + 1;
    [
        Act::Switch { host: 0 },
        Act::Send {
            message,
            from: 0,
            to: k,
        },
        Act::Receive {
            message,
            from: 0,
            to: k,
        },
        Act::Switch { host: k },
        Act::Send {
            message: answer,
            from: k,
            to: 0,
        },
        Act::Receive {
            message: answer,
            from: k,
            to: 0,
        },
    ]
}
