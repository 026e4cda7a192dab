//! The names of fields that kinds of events are told by.
ghost use Rattle.std.specs.Prelude.{◌≡◌};
ghost use Rattle.std.specs.List.{find};
ghost use Rattle.type_table.specs.Names.{same_name};
ghost use Rattle.kernel_layout.specs.Sought.{sought_of, text_of};

use type_table::is_same_name;

/// The name of a field that a kind of event needs.
#[derive(Clone, Copy, Debug, PartialEq, Eq)]
pub enum Sought {
    Tid,
    Irq,
    Vec,
    Comm,
    Prio,
    TargetCpu,
    PrevState,
    PrevTid,
    NextTid,
    PrevPrio,
    NextPrio,
    PrevComm,
    NextComm,
    ParentTid,
    ChildTid,
    ChildComm,
    DestCpu,
    Ppid,
    Name,
    Status,
    Sector,
    Dev,
    NrSector,
    Saddr,
    Daddr,
    SourcePort,
    DestPort,
    Seq,
    AckSeq,
    Flags,
}

const ALL: [Sought; 30] = [
    Sought::Tid,
    Sought::Irq,
    Sought::Vec,
    Sought::Comm,
    Sought::Prio,
    Sought::TargetCpu,
    Sought::PrevState,
    Sought::PrevTid,
    Sought::NextTid,
    Sought::PrevPrio,
    Sought::NextPrio,
    Sought::PrevComm,
    Sought::NextComm,
    Sought::ParentTid,
    Sought::ChildTid,
    Sought::ChildComm,
    Sought::DestCpu,
    Sought::Ppid,
    Sought::Name,
    Sought::Status,
    Sought::Sector,
    Sought::Dev,
    Sought::NrSector,
    Sought::Saddr,
    Sought::Daddr,
    Sought::SourcePort,
    Sought::DestPort,
    Sought::Seq,
    Sought::AckSeq,
    Sought::Flags,
];

impl Sought {
    /// The name as LTTng's kernel tracer has it.
    pub fn text(self) -> &'static [u8]
        ensures { result.now ≡ text_of self }
    {
        match self {
            Sought::Tid => b"tid",
            Sought::Irq => b"irq",
            Sought::Vec => b"vec",
            Sought::Comm => b"comm",
            Sought::Prio => b"prio",
            Sought::TargetCpu => b"target_cpu",
            Sought::PrevState => b"prev_state",
            Sought::PrevTid => b"prev_tid",
            Sought::NextTid => b"next_tid",
            Sought::PrevPrio => b"prev_prio",
            Sought::NextPrio => b"next_prio",
            Sought::PrevComm => b"prev_comm",
            Sought::NextComm => b"next_comm",
            Sought::ParentTid => b"parent_tid",
            Sought::ChildTid => b"child_tid",
            Sought::ChildComm => b"child_comm",
            Sought::DestCpu => b"dest_cpu",
            Sought::Ppid => b"ppid",
            Sought::Name => b"name",
            Sought::Status => b"status",
            Sought::Sector => b"sector",
            Sought::Dev => b"dev",
            Sought::NrSector => b"nr_sector",
            Sought::Saddr => b"saddr",
            Sought::Daddr => b"daddr",
            Sought::SourcePort => b"source_port",
            Sought::DestPort => b"dest_port",
            Sought::Seq => b"seq",
            Sought::AckSeq => b"ack_seq",
            Sought::Flags => b"flags",
        }
    }
}

/// The name that this one counts as of those that are looked for, if any.
#[tactic(auto, unfolding(crate::specs::Sought::sought_of))]
pub fn sought_of(name: &[u8]) -> Option<Sought>
    ensures { result ≡ sought_of name.now }
{
    first_of(&ALL, name)
}

// The first of these that counts as the name.
fn first_of(wanted: &[Sought], name: &[u8]) -> Option<Sought>
    ensures { result ≡ find (λ s. same_name (text_of s) name.now) wanted.now }
{
    for sought in wanted {
        if is_same_name(sought.text(), name) {
            return Some(*sought);
        }
    }
    None
}
