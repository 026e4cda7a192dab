//! Types that are added one by one, each of types that are there.
ghost use Rattle.std.specs.Prelude.{◌≡◌, ◌≤◌, ◌<◌, ◌%◌, ◌^◌, None, Some, length, map, OnOk, IfOk};
ghost use Rattle.indexmap.specs.IndexMap.{keys};
ghost use Rattle.type_table.specs.Faults.{OnBreak};
ghost use Rattle.type_scope.specs.TypeScopes.{Gives, enum_of, pure, sized};
ghost use Rattle.type_scope.specs.Labels.{labels_said};
ghost use Rattle.type_table.specs.Names.{names_said, scope_said};
ghost use Rattle.type_table.specs.Table.{AreBelow, IsWhole, Keeps, LabelNamesIn, integer_in, labels_at, name_at, tree_at};
ghost use Rattle.type_table.specs.Types.{Array, Str, Whole};
ghost use Rattle.type_scope.specs.View.{state, with_table};
ghost use Rattle.type_table.specs.declared.cause.MetaItemCause.TheVariants as causes;

use crate::labels::{behind, label_values};
use crate::scope::TypeScope;
use indexmap::IndexMap;
use sqlite_items::Items;
use std::alloc::Global;
use trace_types::{OutOfMemory, Text};
use tsdl_parser::Label;
use type_table::{
    ClockRate, Declared, Fault, Integer, LabelMeta, Labels, MetaItemCause, Reference, TypeMeta,
    split_scope,
};

impl TypeScope {
    /// What blocks declared so far.
    pub fn declared(&self) -> &Declared
        ensures { result.now ≡ self.now.declared }
    {
        &self.declared
    }

    /// The clocks that were declared, fewer than 2^32, by their names.
    #[tactic(auto, unfolding(crate::specs::View::state))]
    pub fn clocks(&self) -> &IndexMap<Text, ClockRate>
        ensures names { result.now.entries ≡ (state self.now).known.declared.clocks }
        ensures few { length (keys result.now) < 2 ^ 32 }
    {
        self.declared.clocks()
    }

    /// Adds an integer of 1 to 64 bits, whose alignment divides the greatest one.
    pub fn add_integer(&mut self, integer: Integer) -> Result<u32, Fault>
        requires { (1 ≤ integer.size) × (integer.size ≤ 64) × (1 ≤ integer.align) × (65536 % integer.align ≡ 0) }
        ensures { Gives (pure (Whole integer) (state self.old).known) result (state self.new) }
    {
        self.push(TypeMeta::Integer(integer))
    }

    /// Adds a string.
    pub fn add_string(&mut self) -> Result<u32, Fault>
        ensures { Gives (pure Str (state self.old).known) result (state self.new) }
    {
        self.push(TypeMeta::Str)
    }

    /// Adds a list of so many items.
    pub fn add_array(&mut self, count: u64, item: u32) -> Result<u32, Fault>
        requires { item < length (state self.old).types }
        ensures { Gives (sized (Array count (tree_at (state self.old).types item)) (state self.old).known) result (state self.new) }
    {
        self.push(TypeMeta::Array {
            length: count,
            item,
        })
    }

    /// A field path by its words, as numbers of names, which are there from now on.
    pub fn reference(&mut self, alloc: Global, words: &[Text]) -> Result<Reference, OutOfMemory>
        ensures stays { OnOk result (state self.new ≡ state self.old) }
        ensures beside { OnOk result (self.new ≡ with_table self.new.table self.old) }
        ensures field_path { IfOk result (λ r. AreBelow (length self.new.table.names) r.words × (r.scope ≡ scope_said words.now) × (map (name_at self.new.table.names) r.words ≡ names_said words.now)) }
    {
        let (scope, rest) = match split_scope(words) {
            Some((scope, rest)) => (Some(scope), rest),
            None => (None, words),
        };
        let words = self.intern_all(alloc, rest)?;
        Ok(Reference { scope, words })
    }

    // The numbers of names.
    fn intern_all(&mut self, alloc: Global, words: &[Text]) -> Result<Items<u32>, OutOfMemory>
        ensures stays { OnOk result (state self.new ≡ state self.old) }
        ensures beside { OnOk result (self.new ≡ with_table self.new.table self.old) }
        ensures named { IfOk result (λ ns. AreBelow (length self.new.table.names) ns × (map (name_at self.new.table.names) ns ≡ words.now)) }
    {
        let mut numbers = Items::new(alloc);
        for word in words {
            let number = self.intern(alloc, word)?;
            numbers.push(number)?;
        }
        Ok(numbers)
    }

    /// Adds an enumeration of an integer that is there.
    #[tactic(auto, using(crate::proofs::Named::type_there))]
    pub fn add_enum(&mut self, alloc: Global, base: u32, labels: &[Label]) -> Result<u32, Fault>
        requires there { base < length (state self.old).types }
        requires whole { IsWhole (tree_at (state self.old).types base) }
        ensures { Gives (enum_of (integer_in (tree_at (state self.old).types base)) labels.now (state self.old).known) result (state self.new) }
    {
        let labels = self.labels(alloc, labels)?;
        self.push(TypeMeta::Enum { base, labels })
    }

    // Labels with their values.
    fn labels(&mut self, alloc: Global, labels: &[Label]) -> Result<Labels, Fault>
        ensures stays { OnOk result (state self.new ≡ state self.old) }
        ensures beside { OnOk result (self.new ≡ with_table self.new.table self.old) }
        ensures keeps { OnOk result (Keeps self.old.table self.new.table) }
        ensures labels { IfOk result (λ ls. LabelNamesIn (length self.new.table.names) ls × (labels_said labels.now ≡ Some (labels_at self.new.table.names ls))) }
        ensures broken { OnBreak (λ cause. (cause ≡ causes.BadAttribute) × (labels_said labels.now ≡ None)) result }
    {
        let mut found = Items::new(alloc);
        let mut next = 0;
        for label in labels {
            let Some((low, high)) = label_values(next, label) else {
                return Err(Fault::Breaks(MetaItemCause::BadAttribute));
            };
            let name = self.intern(alloc, &label.name)?;
            found.push(LabelMeta { name, low, high })?;
            next = behind(high);
        }
        Ok(Labels::from_items(found))
    }
}
