//! Lists of the events that are merged, before they are gathered.
ghost use Rattle.std.specs.Prelude.{◌≡◌, ◌<◌, ◌^◌, ◌++◌, [], IfOk, OnOk, map};
ghost use Rattle.clock_fraction.specs.ClockMap.{IsMapAt};
ghost use Rattle.host_merge.specs.Lists.{AreTimed, IsJoined};
ghost use Rattle.host_merge.specs.Merge.{by_key, with_own_time};

use clock_fraction::PairMap;
use std::alloc::Global;
use std::marker::Model;
use std::mem;
use trace_types::{Event, Merged, OutOfMemory};

/// An event that stays in its host's list, with its time on the clock to which it was brought.
#[derive(Drop)]
pub struct Head<'a> {
    key: u64,
    event: &'a Event,
}

impl<'a> Model for Head<'a> {
    ghost use Rattle.trace_types.specs.declared.event.Merged.{Merged};

    ghost Value = { Merged };

    ghost view = { λ h. record { key = h.key; event = h.event.now } };
}

impl<'a> Head<'a> {
    fn key(&self) -> u64
        ensures { result ≡ self.now.key }
    {
        self.key
    }

    fn merged(&self) -> Merged
        ensures { result ≡ self.now }
    {
        Merged {
            key: self.key,
            event: *self.event,
        }
    }

    fn copied(&self) -> Head<'a>
        ensures { result ≡ self.now }
    {
        Head {
            key: self.key,
            event: self.event,
        }
    }

    fn brought(&self, map: &PairMap) -> Head<'a>
        requires { self.now.key < 2 ^ 62 }
        ensures event { result.event ≡ self.now.event }
        ensures key { IsMapAt map.now self.now.key result.key }
        ensures range { result.key < 2 ^ 62 }
    {
        Head {
            key: map.map(self.key),
            event: self.event,
        }
    }
}

/// Events of a host and of those below it, on its clock.
#[derive(Drop)]
pub struct MergedList<'a> {
    heads: Vec<Head<'a>>,
}

impl<'a> Model for MergedList<'a> {
    ghost use Rattle.std.specs.Prelude.{List};
    ghost use Rattle.trace_types.specs.declared.event.Merged.{Merged};

    ghost Value = { List Merged };

    ghost view = { λ l. l.heads.items };
}

impl<'a> MergedList<'a> {
    pub fn new(alloc: Global) -> Self
        ensures { result ≡ [] }
    {
        MergedList {
            heads: Vec::new(alloc),
        }
    }

    /// A host's own events, with their own times as keys.
    pub fn own(alloc: Global, events: &'a [Event]) -> Result<Self, OutOfMemory>
        ensures { IfOk result (λ list. list ≡ map with_own_time events.now) }
    {
        let heads = events
            .iter()
            .map(|event| Head {
                key: event.time,
                event,
            })
            .collect(alloc)?;
        Ok(MergedList { heads })
    }

    /// The events themselves, copied from the hosts' lists.
    pub fn gather(&self, alloc: Global) -> Result<Vec<Merged>, OutOfMemory>
        ensures { IfOk result (λ merged. merged.items ≡ self.now) }
    {
        Ok(self.heads.iter().map(|head| head.merged()).collect(alloc)?)
    }

    pub fn sort(&mut self) -> Result<(), OutOfMemory>
        ensures { OnOk result (self.new ≡ by_key self.old) }
    {
        self.heads.sort_by_key(|head: &Head| head.key())?;
        Ok(())
    }

    /// Appends the events of another list on the same clock.
    pub fn append(&mut self, other: MergedList<'a>) -> Result<(), OutOfMemory>
        ensures { OnOk result (self.new ≡ self.old ++ other.entry) }
    {
        if self.heads.is_empty() {
            self.heads = other.heads;
            return Ok(());
        }
        let mut heads = other.heads;
        self.heads.append(&mut heads)?;
        Ok(())
    }

    /// Joins the events of a list on another clock, sorted there, with their keys brought to this one.
    ///
    /// The two are merged in one pass, unless this list is the longer one. Then they are put at its end, to be sorted later: else
    /// each of many short lists would cost a pass over all that the list has. What `spare` has is lost: its memory is used, and
    /// then it has that of the other list.
    pub fn bring(
        &mut self,
        mut other: MergedList<'a>,
        map: &PairMap,
        spare: &mut MergedList<'a>,
    ) -> Result<(), OutOfMemory>
        requires { AreTimed other }
        ensures { OnOk result (IsJoined map.now (by_key other.entry) self.old self.new) }
    {
        other.sort()?;
        if self.heads.len() > other.heads.len() {
            return put_at_end(&mut self.heads, other.heads.as_slice(), map);
        }
        self.sort()?;
        merge(
            &mut spare.heads,
            self.heads.as_slice(),
            other.heads.as_slice(),
            map,
        )?;
        self.heads = mem::replace(&mut spare.heads, other.heads);
        Ok(())
    }
}

fn put_at_end<'a>(
    heads: &mut Vec<Head<'a>>,
    others: &[Head<'a>],
    map: &PairMap,
) -> Result<(), OutOfMemory>
    requires { AreTimed others.now }
    ensures { OnOk result (IsJoined map.now others.now heads.old.items heads.new.items) }
{
    for other in others {
        heads.push(other.brought(map))?;
    }
    Ok(())
}

// Both lists are in order. Where keys are equal, the own heads come first.
fn merge<'a>(
    heads: &mut Vec<Head<'a>>,
    own: &[Head<'a>],
    others: &[Head<'a>],
    map: &PairMap,
) -> Result<(), OutOfMemory>
    requires own { own.now ≡ by_key own.now }
    requires others { others.now ≡ by_key others.now }
    requires times { AreTimed others.now }
    ensures { OnOk result (IsJoined map.now others.now own.now heads.new.items) }
{
    heads.clear();
    heads.reserve(own.len() + others.len())?;
    let mut next = 0;
    for other in others {
        let brought = other.brought(map);
        while next < own.len() && own[next].key() <= brought.key() {
            heads.push(own[next].copied())?;
            next += 1;
        }
        heads.push(brought)?;
    }
    for head in &own[next..] {
        heads.push(head.copied())?;
    }
    Ok(())
}
