//! The fields that a segment is told by, found in one walk.
ghost use Rattle.std.specs.Prelude.{◌≡◌, Some, None, codes, if◌then◌else◌};
ghost use Rattle.std.specs.Option.{option_copied};
ghost use Rattle.type_table.specs.Names.{same_name};
ghost use Rattle.type_table.specs.Table.{name_at};
ghost use Rattle.ctf_fields.specs.Fields.{or_else};
ghost use Rattle.ctf_fields.specs.Named.{first_at, first_in, first_member, first_named};
ghost use Rattle.kernel_layout.specs.SegmentParts.{Finds, part_name};
ghost use Rattle.kernel_layout.specs.Sought.{known_of, text_of};

use crate::known::sought_at;
use crate::sought::Sought;
use ctf_fields::{Field, Member};
use trace_types::MAX_TYPE_DEPTH;
use type_table::Table;

/// The first field of each name that a segment is told by.
#[derive(Clone, Copy)]
pub struct SegmentFields<'a> {
    pub saddr: Option<&'a Field>,
    pub daddr: Option<&'a Field>,
    pub source_port: Option<&'a Field>,
    pub dest_port: Option<&'a Field>,
    pub seq: Option<&'a Field>,
    pub ack_seq: Option<&'a Field>,
    pub flags: Option<&'a Field>,
}

/// The fields of a segment within a field, at any depth.
pub fn segment_fields<'a>(
    table: &Table,
    known: &[Option<Sought>],
    root: &'a Field,
) -> SegmentFields<'a>
    requires { known.now ≡ known_of table.now.names }
    ensures saddr { option_copied result.saddr ≡ first_named table.now.names (codes "saddr") (Some root.now) }
    ensures daddr { option_copied result.daddr ≡ first_named table.now.names (codes "daddr") (Some root.now) }
    ensures source_port { option_copied result.source_port ≡ first_named table.now.names (codes "source_port") (Some root.now) }
    ensures dest_port { option_copied result.dest_port ≡ first_named table.now.names (codes "dest_port") (Some root.now) }
    ensures seq { option_copied result.seq ≡ first_named table.now.names (codes "seq") (Some root.now) }
    ensures ack_seq { option_copied result.ack_seq ≡ first_named table.now.names (codes "ack_seq") (Some root.now) }
    ensures flags { option_copied result.flags ≡ first_named table.now.names (codes "flags") (Some root.now) }
{
    let mut found = SegmentFields {
        saddr: None,
        daddr: None,
        source_port: None,
        dest_port: None,
        seq: None,
        ack_seq: None,
        flags: None,
    };
    find_in(table, known, MAX_TYPE_DEPTH, root, &mut found);
    found
}

#[cycle(find)]
fn find_in<'a>(
    table: &Table,
    known: &[Option<Sought>],
    depth: u32,
    field: &'a Field,
    found: &mut SegmentFields<'a>,
)
    requires { known.now ≡ known_of table.now.names }
    ensures { Finds (λ p. first_in depth table.now.names (part_name p) field.now) found.old found.new }
{
    if depth == 0 {
        return;
    }
    match field {
        Field::Struct(members) => find_among(table, known, depth - 1, members.as_slice(), found),
        Field::Choice { name, field } => {
            find_at(table, known, depth - 1, *name, field.get(), found)
        }
        _ => {}
    }
}

#[cycle(find)]
fn find_among<'a>(
    table: &Table,
    known: &[Option<Sought>],
    depth: u32,
    members: &'a [Member],
    found: &mut SegmentFields<'a>,
)
    requires { known.now ≡ known_of table.now.names }
    ensures { Finds (λ p. first_member (first_in depth table.now.names (part_name p)) table.now.names (part_name p) members.now) found.old found.new }
{
    for member in members {
        find_at(table, known, depth, member.name, &member.field, found);
    }
}

// The field itself, and then those within it.
#[inline(always)]
#[cycle(find)]
fn find_at<'a>(
    table: &Table,
    known: &[Option<Sought>],
    depth: u32,
    name: u32,
    field: &'a Field,
    found: &mut SegmentFields<'a>,
)
    requires { known.now ≡ known_of table.now.names }
    ensures { Finds (λ p. first_at (first_in depth table.now.names (part_name p)) table.now.names (part_name p) name field.now) found.old found.new }
{
    keep_named(table, known, name, field, found);
    match field {
        Field::Int { .. } => {}
        _ => find_in(table, known, depth, field, found),
    }
}

// The field of this name is kept, if a segment is told by it and none was found before.
#[inline(always)]
fn keep_named<'a>(
    table: &Table,
    known: &[Option<Sought>],
    name: u32,
    field: &'a Field,
    found: &mut SegmentFields<'a>,
)
    requires { known.now ≡ known_of table.now.names }
    ensures { Finds (λ p. if same_name (part_name p) (name_at table.now.names name) then Some field.now else None) found.old found.new }
{
    if let Some(sought) = sought_at(table, known, name) {
        keep(sought, field, found);
    }
}

fn keep<'a>(name: Sought, field: &'a Field, found: &mut SegmentFields<'a>)
    ensures { Finds (λ p. if same_name (part_name p) (text_of name) then Some field.now else None) found.old found.new }
{
    match name {
        Sought::Saddr => keep_first(&mut found.saddr, field),
        Sought::Daddr => keep_first(&mut found.daddr, field),
        Sought::SourcePort => keep_first(&mut found.source_port, field),
        Sought::DestPort => keep_first(&mut found.dest_port, field),
        Sought::Seq => keep_first(&mut found.seq, field),
        Sought::AckSeq => keep_first(&mut found.ack_seq, field),
        Sought::Flags => keep_first(&mut found.flags, field),
        _ => {}
    }
}

// Only the first of a name counts.
fn keep_first<'a>(first: &mut Option<&'a Field>, field: &'a Field)
    ensures { option_copied first.new ≡ or_else (option_copied first.old) (Some field.now) }
{
    if first.is_none() {
        *first = Some(field);
    }
}
