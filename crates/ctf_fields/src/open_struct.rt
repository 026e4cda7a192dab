//! What a tag or a length may lead to: the scopes that were read, and the structures that are being read.
ghost use Rattle.std.specs.Prelude.{◌≡◌, [], reverse};
ghost use Rattle.ctf_fields.specs.Fields.{fields_of, outer};

use crate::field::{Field, Member};
use sqlite_items::Items;
use std::alloc::Global;
use type_table::PerScope;

/// The fields of the scopes that were read before.
pub type Scopes = PerScope<Option<Field>>;

/// A structure that is being read: its name, where it is a field of the structure around it, and its fields so far.
#[derive(Drop)]
pub struct OpenStruct {
    pub name: Option<u32>,
    pub fields: Items<Member>,
}

// Ends all structures.
pub fn clear(open_structs: &mut Items<OpenStruct>)
    ensures { open_structs.new ≡ [] }
{
    while open_structs.pop().is_some() {}
}

// Ends the innermost structure, with the fields that it has.
pub fn take_fields(alloc: Global, open_structs: &mut Items<OpenStruct>) -> Items<Member>
    ensures fields { result ≡ fields_of (reverse open_structs.old) }
    ensures outer { reverse open_structs.new ≡ outer (reverse open_structs.old) }
{
    match open_structs.pop() {
        Some(inner) => inner.fields,
        None => Items::new(alloc),
    }
}
