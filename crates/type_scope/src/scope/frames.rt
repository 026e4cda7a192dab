//! Structures and variants that are being read.
ghost use Rattle.std.specs.Prelude.{◌≡◌, ◌<◌, ◌≤◌, ◌%◌, None, Some, if◌then◌else◌, length, option_map, reverse, OnErr, OnOk};
ghost use Rattle.type_scope.specs.TypeScopes.{Does, Gives, entered, fields_read, opened, outer, struct_ended, variant_ended, with_field, with_frames};
ghost use Rattle.type_table.specs.Table.{FieldNamesIn, FieldsIn, name_at, tree, tree_at};
ghost use Rattle.type_scope.specs.View.{kept_field, kept_fields, kept_inner, kept_outer, read_at, state};
ghost use Rattle.type_table.specs.TraceMetas.{IfHere};

use crate::scope::{Frame, TypeScope};
use sqlite_items::Items;
use std::alloc::{AllocError, Global};
use trace_types::Text;
use type_table::{Fault, FieldMeta, MetaItemCause, Reference, TypeMeta, VariantFields};

impl TypeScope {
    /// Begins a structure or a variant.
    #[tactic(auto, unfolding(crate::specs::View::state), using(crate::proofs::Frames::opened_frames, crate::proofs::Frames::opened_kept))]
    pub fn open(&mut self, alloc: Global, is_struct: bool) -> Result<(), Fault>
        ensures step { Does (opened is_struct (state self.old).known) result (state self.new) }
        ensures table { OnOk result (self.new.table ≡ self.old.table) }
        ensures types { OnOk result ((state self.new).types ≡ (state self.old).types) }
    {
        self.frames.push(Frame {
            is_struct,
            inner: None,
            fields: Items::new(alloc),
        })?;
        Ok(())
    }

    /// Notes that a field of this name is read next, a structure itself or none.
    #[tactic(auto, unfolding(crate::specs::View::state), using(crate::proofs::Frames::inner_kept, crate::proofs::Frames::inner_frames))]
    pub fn enter(&mut self, alloc: Global, name: &Text, is_struct: bool) -> Result<(), Fault>
        ensures step { Does (entered (if is_struct then Some name.now else None) (state self.old).known) result (state self.new) }
    {
        let inner = if is_struct {
            Some(self.intern(alloc, name)?)
        } else {
            None
        };
        set_inner(&mut self.frames, inner)?;
        Ok(())
    }

    /// Notes that a field of this type was read.
    #[tactic(auto, unfolding(crate::specs::View::state), using(crate::proofs::Frames::field_kept, crate::proofs::Frames::field_frames))]
    pub fn add_field(&mut self, alloc: Global, name: &Text, index: u32) -> Result<(), Fault>
        requires { index < length (state self.old).types }
        ensures step { Does (with_field name.now (tree_at (state self.old).types index) (state self.old).known) result (state self.new) }
    {
        let name = self.intern(alloc, name)?;
        set_field(&mut self.frames, FieldMeta { name, ty: index })?;
        Ok(())
    }

    /// Ends a structure that is aligned to so many bits at least, a power of two up to 65,536.
    #[tactic(auto, using(crate::proofs::Frames::fields_are, crate::proofs::Frames::too_many))]
    pub fn end_struct(&mut self, alloc: Global, align: u32) -> Result<u32, Fault>
        requires { (1 ≤ align) × (65536 % align ≡ 0) }
        ensures { Gives (struct_ended align (state self.old).known) result (state self.new) }
    {
        let fields = self.close(alloc);
        let Some(widest) = self.table.widest(fields.as_slice()) else {
            return Err(Fault::Breaks(MetaItemCause::BadAttribute));
        };
        let align = align.max(widest);
        self.push(TypeMeta::Struct { align, fields })
    }

    /// Ends a variant, which has no tag yet.
    #[tactic(auto, using(crate::proofs::Frames::fields_are))]
    pub fn end_variant(&mut self, alloc: Global) -> Result<u32, Fault>
        ensures { Gives (variant_ended (state self.old).known) result (state self.new) }
    {
        let fields = self.close(alloc);
        let tag = Reference {
            scope: None,
            words: Items::new(alloc),
        };
        self.push(TypeMeta::Variant {
            tag,
            fields: VariantFields::from_items(alloc, fields)?,
        })
    }

    /// Notes that a field of the name of this number is read next, a structure itself, or one that is none.
    #[tactic(auto, unfolding(crate::specs::View::state), using(crate::proofs::Frames::inner_kept, crate::proofs::Frames::inner_frames))]
    pub fn enter_known(&mut self, inner: Option<u32>) -> Result<(), Fault>
        requires { IfHere (λ n. n < length self.old.table.names) inner }
        ensures step { Does (entered (option_map (name_at self.old.table.names) inner) (state self.old).known) result (state self.new) }
        ensures table { OnOk result (self.new.table ≡ self.old.table) }
    {
        set_inner(&mut self.frames, inner)?;
        Ok(())
    }

    /// Notes that a field was read whose name and type are there.
    #[tactic(auto, unfolding(crate::specs::View::state), using(crate::proofs::Frames::known_kept, crate::proofs::Frames::field_frames))]
    pub fn add_known(&mut self, field: FieldMeta) -> Result<(), Fault>
        requires name { field.name < length self.old.table.names }
        requires there { field.ty < length self.old.table.types }
        ensures step { Does (with_field (name_at self.old.table.names field.name) (tree self.old.table field.ty) (state self.old).known) result (state self.new) }
        ensures table { OnOk result (self.new.table ≡ self.old.table) }
    {
        set_field(&mut self.frames, field)?;
        Ok(())
    }

    /// Ends the innermost frame, with the fields that it has read.
    #[tactic(auto, unfolding(crate::specs::View::state), using(crate::proofs::Frames::outer_kept, crate::proofs::Frames::closed_frames, crate::proofs::Frames::closed_fields, crate::proofs::Frames::closed_types, crate::proofs::Frames::closed_names))]
    pub fn close(&mut self, alloc: Global) -> Items<FieldMeta>
        ensures table { self.new.table ≡ self.old.table }
        ensures known { (state self.new).known ≡ with_frames (outer (state self.old).known.frames) (state self.old).known }
        ensures types { FieldsIn (length self.old.table.types) result }
        ensures names { FieldNamesIn (length self.old.table.names) result }
        ensures fields { read_at self.old.table result ≡ fields_read (state self.old).known.frames }
    {
        last_fields(alloc, &mut self.frames)
    }
}

// The innermost frame reads this field next.
fn set_inner(frames: &mut Items<Frame>, inner: Option<u32>) -> Result<(), AllocError>
    ensures ok { OnOk result (reverse frames.new ≡ kept_inner inner (reverse frames.old)) }
    ensures err { OnErr result (reverse frames.new ≡ kept_outer (reverse frames.old)) }
{
    let Some(mut frame) = frames.pop() else {
        return Ok(());
    };
    frame.inner = inner;
    frames.push(frame)
}

// The innermost frame has read this field.
fn set_field(frames: &mut Items<Frame>, field: FieldMeta) -> Result<(), AllocError>
    ensures ok { OnOk result (reverse frames.new ≡ kept_field field (reverse frames.old)) }
    ensures err { OnErr result (reverse frames.new ≡ kept_outer (reverse frames.old)) }
{
    let Some(mut frame) = frames.pop() else {
        return Ok(());
    };
    frame.inner = None;
    frame.fields.push(field)?;
    frames.push(frame)
}

// Ends the innermost frame, with the fields that it has read.
fn last_fields(alloc: Global, frames: &mut Items<Frame>) -> Items<FieldMeta>
    ensures fields { result ≡ kept_fields (reverse frames.old) }
    ensures frames { reverse frames.new ≡ kept_outer (reverse frames.old) }
{
    match frames.pop() {
        Some(frame) => frame.fields,
        None => Items::new(alloc),
    }
}
