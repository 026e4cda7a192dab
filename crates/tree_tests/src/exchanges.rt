//! Messages for tests, and the forest that comes of them.
ghost use Rattle.std.specs.Prelude.{◌<◌, ◌≤◌, ◌^◌, All, IsTrue, length};
ghost use Rattle.host_tree.specs.Points.{IsBetween};

use host_tree::{Parent, fits, forest};
use hull_lines::Fit;
use message_match::{Message, Messages};
use std::alloc::AllocGlobal;
use std::process::Abort;
use std::test::Fail;

/// A message; no fit depends on its events' places.
pub fn message(from: u32, sent: u64, to: u32, received: u64) -> Message {
    Message {
        sent,
        received,
        from,
        send: 0,
        to,
        receive: 0,
    }
}

fn are_between(hosts: u32, messages: &[Message]) -> bool
    ensures { IsTrue result → All (IsBetween hosts) messages.now }
{
    messages.iter().all(|m| {
        m.from < hosts
            && m.to < hosts
            && m.from != m.to
            && m.sent > 0
            && m.sent < 0x4000_0000_0000_0000
            && m.received > 0
            && m.received < 0x4000_0000_0000_0000
    })
}

/// The fits of these messages, at a drift of 1000.
pub fn fits_of<R: Abort + AllocGlobal>(
    rt: &R,
    hosts: u32,
    messages: &[Message],
) -> Result<Vec<Fit>, Fail>
    requires { hosts ≤ 64 }
{
    let messages = Messages {
        matched: Vec::from_slice(rt.alloc(), messages)?,
        ambiguous: 0,
    };
    assert!(rt; messages.matched.len() < 1000);
    assert!(rt; are_between(hosts, messages.matched.as_slice()));
    Ok(fits(rt.alloc(), hosts, &messages, 1000)?)
}

/// The number of each host's parent, or None at a root.
pub fn parents_of<R: Abort + AllocGlobal>(
    rt: &R,
    hosts: u32,
    messages: &[Message],
) -> Result<Vec<Option<u32>>, Fail>
    requires { hosts ≤ 64 }
{
    let fits = fits_of(rt, hosts, messages)?;
    assert!(rt; fits.len() == (hosts * hosts) as usize);
    let parents = forest(rt.alloc(), hosts, &fits)?;
    let numbers = parents
        .iter()
        .map(|parent| match parent {
            Parent::Root => None,
            Parent::Child { parent, .. } => Some(*parent),
        })
        .collect(rt.alloc())?;
    Ok(numbers)
}

/// The parents of hosts where each of these pairs sent messages both ways that bring their clocks together.
pub fn parents_by<R: Abort + AllocGlobal>(
    rt: &R,
    hosts: u32,
    pairs: &[(u32, u32)],
) -> Result<Vec<Option<u32>>, Fail>
    requires { hosts ≤ 64 }
{
    let mut messages = Vec::new(rt.alloc());
    for (one, other) in pairs {
        messages.push(message(*one, 1100, *other, 2000))?;
        messages.push(message(*other, 2100, *one, 1300))?;
    }
    parents_of(rt, hosts, &messages)
}
