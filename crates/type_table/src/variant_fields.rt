//! The fields of a variant, among which those of a name are found.
ghost use Rattle.std.specs.Prelude.{◌≡◌, IfOk};
ghost use Rattle.type_table.specs.VariantFields.{AreFirsts, first_of};

use crate::meta::FieldMeta;
use indexmap::IndexMap;
use sqlite_items::Items;
use std::alloc::Global;
use std::marker::Model;
use trace_types::OutOfMemory;

/// Among so many fields one is found without a map.
pub const FEW_FIELDS: usize = 16;

/// The fields of a variant, in the order in which they were declared. Contracts see them as a list.
#[derive(Debug, Drop)]
pub struct VariantFields {
    fields: Items<FieldMeta>,
    // Where there are more than a few fields, the index of the first of each name.
    firsts: IndexMap<u32, usize>,
}

impl Model for VariantFields {
    ghost use Rattle.std.specs.Prelude.{List};
    ghost use Rattle.type_table.specs.VariantFields.{AreNoted};
    ghost use Rattle.type_table.specs.declared.meta.FieldMeta.{FieldMeta};

    ghost Value = { List FieldMeta };

    ghost view = { λ s. s.fields };

    ghost invariant = { λ s. AreNoted s.firsts s.fields };
}

impl VariantFields {
    /// The fields of a list. Where there are more than a few, one pass notes the first of each name.
    pub fn from_items(alloc: Global, items: Items<FieldMeta>) -> Result<VariantFields, OutOfMemory>
        ensures { IfOk result (λ fields. fields ≡ items) }
    {
        let fields = items.as_slice();
        let firsts = if fields.len() > FEW_FIELDS {
            firsts_of(alloc, fields)?
        } else {
            IndexMap::new(alloc)
        };
        Ok(VariantFields {
            fields: items,
            firsts,
        })
    }

    /// All fields.
    pub fn as_slice(&self) -> &[FieldMeta]
        ensures { result.now ≡ self.now }
    {
        self.fields.as_slice()
    }

    /// The index of the first field whose name has a number: from the map where there are more than a few, and else found one after the other.
    pub fn first_of(&self, name: u32) -> Option<usize>
        ensures { result ≡ first_of name self.now }
    {
        let fields = self.fields.as_slice();
        if fields.len() > FEW_FIELDS {
            self.firsts.get(&name).copied()
        } else {
            fields.iter().position(|field| field.name == name)
        }
    }
}

// The index of the first field of each name.
fn firsts_of(alloc: Global, fields: &[FieldMeta]) -> Result<IndexMap<u32, usize>, OutOfMemory>
    ensures { IfOk result (λ firsts. AreFirsts firsts fields.now) }
{
    let mut firsts = IndexMap::new(alloc);
    for (index, field) in fields.iter().enumerate() {
        firsts.entry(field.name)?.or_insert(index);
    }
    Ok(firsts)
}
