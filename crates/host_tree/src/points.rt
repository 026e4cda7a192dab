//! The points that messages give for each pair of hosts.
ghost use Rattle.std.specs.Prelude.{◌≡◌, ◌<◌, ◌≤◌, ◌*◌, ◌∷◌, ◌++◌, [], All, IfOk, OnOk, replicate};
ghost use Rattle.host_tree.specs.Gathered.{AreGathered, IsPointOf};
ghost use Rattle.host_tree.specs.Points.{IsBetween};

use hull_lines::ClockPoint;
use message_match::Message;
use std::alloc::Global;
use std::marker::Model;
use trace_types::OutOfMemory;

/// Which of a pair's points: those that its lines pass over, or those that they pass under.
#[derive(Clone, Copy)]
pub enum Side {
    Lower,
    Upper,
}

/// A point of the pair of this parent and this child.
#[derive(Clone, Copy)]
pub struct PairPoint {
    pub parent: u32,
    pub child: u32,
    pub point: ClockPoint,
}

/// The points of one pair on one side.
#[derive(Drop)]
pub struct PointList {
    points: Vec<ClockPoint>,
}

impl Model for PointList {
    ghost use Rattle.std.specs.Prelude.{List};
    ghost use Rattle.hull_lines.specs.declared.point.ClockPoint.{ClockPoint};

    ghost Value = { List ClockPoint };

    ghost view = { λ l. l.points.items };
}

impl PointList {
    pub fn new(alloc: Global) -> Self
        ensures { result ≡ [] }
    {
        PointList {
            points: Vec::new(alloc),
        }
    }

    pub fn push(&mut self, point: ClockPoint) -> Result<(), OutOfMemory>
        ensures { OnOk result (self.new ≡ self.old ++ point ∷ []) }
    {
        self.points.push(point)?;
        Ok(())
    }

    pub fn as_slice(&self) -> &[ClockPoint]
        ensures { result.now ≡ self.now }
    {
        self.points.as_slice()
    }
}

/// The points of all pairs on one side, those of each pair at the place `parent * hosts + child`.
pub fn gather(
    alloc: Global,
    hosts: u32,
    messages: &[Message],
    side: Side,
) -> Result<Vec<PointList>, OutOfMemory>
    requires few { hosts ≤ 64 }
    requires between { All (IsBetween hosts) messages.now }
    ensures { IfOk result (λ lists. AreGathered side hosts messages.now lists.items) }
{
    let mut lists = no_points(alloc, hosts * hosts)?;
    add_points(&mut lists, hosts, messages, side)?;
    Ok(lists)
}

fn no_points(alloc: Global, count: u32) -> Result<Vec<PointList>, OutOfMemory>
    ensures { IfOk result (λ lists. lists.items ≡ replicate count []) }
{
    let mut lists = Vec::new(alloc);
    for _ in 0..count {
        lists.push(PointList::new(alloc))?;
    }
    Ok(lists)
}

fn add_points(
    lists: &mut Vec<PointList>,
    hosts: u32,
    messages: &[Message],
    side: Side,
) -> Result<(), OutOfMemory>
    requires few { hosts ≤ 64 }
    requires between { All (IsBetween hosts) messages.now }
    requires empty { lists.old.items ≡ replicate (hosts * hosts) [] }
    ensures { OnOk result (AreGathered side hosts messages.now lists.new.items) }
{
    for message in messages {
        let PairPoint {
            parent,
            child,
            point,
        } = point_of(hosts, message, side);
        lists[(parent * hosts + child) as usize].push(point)?;
    }
    Ok(())
}

// A lower point is a message to the child, received there and sent here. An upper point is one from the
// child, sent there, and not yet received here: its parent's time is one before that of the receipt.
fn point_of(hosts: u32, message: &Message, side: Side) -> PairPoint
    requires { IsBetween hosts message.now }
    ensures point { IsPointOf side message.now result }
    ensures parent { result.parent < hosts }
    ensures child { result.child < hosts }
{
    match side {
        Side::Lower => PairPoint {
            parent: message.from,
            child: message.to,
            point: ClockPoint {
                x: message.received,
                y: message.sent,
            },
        },
        Side::Upper => PairPoint {
            parent: message.to,
            child: message.from,
            point: ClockPoint {
                x: message.sent,
                y: message.received - 1,
            },
        },
    }
}
