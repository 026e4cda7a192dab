//! Where a field path may lead by the text of a type that stands further on.
ghost use Rattle.std.specs.Prelude.{◌≡◌, ◌<◌, length, map, IfOk};
ghost use Rattle.std.specs.Option.{option_copied};
ghost use Rattle.type_scope.specs.Ahead.{ends_at, from_known, last_field, may_lead};
ghost use Rattle.type_scope.specs.TypeScopes.{type_named};
ghost use Rattle.type_table.specs.Names.{spaced};
ghost use Rattle.type_table.specs.Table.{AreBelow, name_at};
ghost use Rattle.type_table.specs.declared.names.NameKind.TheVariants as kinds;
ghost use Rattle.type_scope.specs.View.{state};

use crate::field_path::PathUse;
use crate::said::is_signed;
use crate::scope::TypeScope;
use crate::scope::references::leads_from;
use std::alloc::Global;
use trace_types::{OutOfMemory, Text};
use tsdl_parser::{FieldTree, TypeTree};
use type_table::{NameKind, is_same_name, spaced};

impl TypeScope {
    /// Whether a field path of these names may lead from a type on to what is wanted, by the type's text.
    pub fn may_lead(
        &self,
        alloc: Global,
        path_use: PathUse,
        names: &[u32],
        tree: &TypeTree,
    ) -> Result<bool, OutOfMemory>
        requires { AreBelow (length self.now.table.names) names.now }
        ensures { IfOk result (λ leads. leads ≡ may_lead (state self.now).known path_use (map (name_at self.now.table.names) names.now) tree.now) }
    {
        let [name, rest @ ..] = names else {
            return self.ends_at(alloc, path_use, tree);
        };
        match tree {
            TypeTree::Struct(tree) => match (&tree.body, &tree.name) {
                (Some(body), _) => match last_field(
                    self.table.name(*name),
                    body.fields.as_slice(),
                ) {
                    Some(field) if field.dims.is_empty() => {
                        self.may_lead(alloc, path_use, rest, &field.ty)
                    }
                    _ => Ok(false),
                },
                (None, Some(known)) => Ok(self.name_leads(
                    NameKind::Struct,
                    known,
                    path_use,
                    names,
                )),
                (None, None) => Ok(true),
            },
            TypeTree::Words(words) => self.alias_leads(alloc, words.as_slice(), path_use, names),
            TypeTree::Float(_) => Ok(true),
            _ => Ok(false),
        }
    }

    // Whether a field path that ends at a type may lead to what is wanted.
    fn ends_at(
        &self,
        alloc: Global,
        path_use: PathUse,
        tree: &TypeTree,
    ) -> Result<bool, OutOfMemory>
        ensures { IfOk result (λ ends. ends ≡ ends_at (state self.now).known path_use tree.now) }
    {
        match (tree, path_use) {
            (TypeTree::Words(words), _) => self.alias_leads(alloc, words.as_slice(), path_use, &[]),
            (TypeTree::Enum(_), PathUse::Tag) => Ok(true),
            (TypeTree::Integer(attrs), PathUse::Length) => Ok(!is_signed(attrs.as_slice())),
            (TypeTree::Float(_), _) => Ok(true),
            _ => Ok(false),
        }
    }

    fn alias_leads(
        &self,
        alloc: Global,
        words: &[Text],
        path_use: PathUse,
        names: &[u32],
    ) -> Result<bool, OutOfMemory>
        requires { AreBelow (length self.now.table.names) names.now }
        ensures { IfOk result (λ leads. leads ≡ from_known path_use (map (name_at self.now.table.names) names.now) (type_named kinds.Alias (spaced words.now) (state self.now).known)) }
    {
        let name = spaced(alloc, words)?;
        Ok(self.name_leads(NameKind::Alias, &name, path_use, names))
    }

    // Whether a field path may lead on from the type of a name, which may get one later where it has none.
    #[tactic(auto, unfolding(crate::specs::View::state))]
    fn name_leads(&self, kind: NameKind, name: &Text, path_use: PathUse, names: &[u32]) -> bool
        requires { AreBelow (length self.now.table.names) names.now }
        ensures { result ≡ from_known path_use (map (name_at self.now.table.names) names.now) (type_named kind name.now (state self.now).known) }
    {
        match self.find(kind, name) {
            Some(index) => leads_from(&self.table, path_use, index, names),
            None => true,
        }
    }
}

// The last field of a name.
fn last_field<'a>(name: &[u8], fields: &'a [FieldTree]) -> Option<&'a FieldTree>
    ensures { option_copied result ≡ last_field name.now fields.now }
{
    fields
        .iter()
        .rev()
        .find(|field| is_same_name(name, field.name.as_bytes()))
}
