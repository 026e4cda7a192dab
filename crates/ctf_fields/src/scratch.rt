//! Memory that reading needs beside the fields that it gives.
ghost use Rattle.std.specs.Prelude.{◌≡◌, [], IfOk};

use crate::field::{Field, Member};
use crate::numbers::room_for;
use crate::open_struct::OpenStruct;
use sqlite_items::Items;
use std::alloc::{AllocError, Global};
use trace_types::MAX_TYPE_DEPTH;

/// The structures that are being read, and lists of fields whose memory is used again. Events that are read one after
/// the other with one of these take less memory anew.
#[derive(Drop)]
pub struct Scratch {
    pub(crate) open_structs: Items<OpenStruct>,
    pub(crate) spare: Items<Items<Member>>,
}

impl Scratch {
    /// It takes no memory.
    pub fn new(alloc: Global) -> Scratch {
        Scratch {
            open_structs: Items::new(alloc),
            spare: Items::new(alloc),
        }
    }

    /// Takes the memory of a field that is no longer needed.
    pub fn recycle(&mut self, field: Field) {
        keep(&mut self.spare, MAX_TYPE_DEPTH, field);
    }

    // An empty list of fields, with room for so many where its memory is new.
    pub(crate) fn list_for(
        &mut self,
        alloc: Global,
        count: u64,
    ) -> Result<Items<Member>, AllocError>
        ensures list { IfOk result (λ list. list ≡ []) }
        ensures open_structs { self.new.open_structs ≡ self.old.open_structs }
    {
        match self.spare.pop() {
            Some(list) => Ok(emptied(list)),
            None => room_for(alloc, count),
        }
    }
}

// Keeps the lists of a field, and drops what is in them.
#[cycle(keep)]
fn keep(spare: &mut Items<Items<Member>>, depth: u32, field: Field) {
    if depth == 0 {
        return;
    }
    match field {
        Field::Struct(members) => keep_list(spare, depth - 1, members),
        Field::Choice { field, .. } => keep(spare, depth - 1, field.into_inner()),
        _ => {}
    }
}

#[cycle(keep)]
fn keep_list(spare: &mut Items<Items<Member>>, depth: u32, members: Items<Member>) {
    let mut members = members;
    while let Some(member) = members.pop() {
        keep(spare, depth, member.field);
    }
    // without memory for it, the list is dropped
    let _ = spare.push(members);
}

fn emptied(list: Items<Member>) -> Items<Member>
    ensures { result ≡ [] }
{
    let mut list = list;
    while list.pop().is_some() {}
    list
}
