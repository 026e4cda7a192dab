//! The history of attribute values, built step by step.
ghost use Rattle.std.specs.Prelude.{◌≡◌, ◌<◌, ◌≤◌, ◌-◌, ◌^◌, ◌++◌, ◌∷◌, [], List, length, IfOk, IfSome, OnOk, OnErr};
ghost use Rattle.kernel_provider.specs.declared.step.Step.{Step};
ghost use Rattle.history_core.specs.Stands.{Stands, CanFollow};
ghost use Rattle.history_core.specs.Answers.{answer_after};
ghost use Rattle.history_nodes.specs.Nodes.{opened as new_node};
ghost use Rattle.history_tree.specs.Records.{content_of};
ghost use Rattle.history_tree.specs.Tree.{tree_of};
ghost use Rattle.attribute_tree.specs.Numbered.{number_among};
ghost use Rattle.history_core.specs.Intervals.{open_at, parts_of, taken, AreKept, EndBefore, IsTreeAfterStep, IsValueIn};
ghost use Rattle.history_core.specs.declared.question.Answer.TheVariants.{State, NotYet};
ghost use Rattle.trace_types.specs.declared.value.Value.{Value};

use crate::closed::{Since, change, value_held};
use crate::opened::OpenIntervals;
use crate::question::Answer;
use attribute_tree::Attributes;
use history_tree::Tree;
use kernel_provider::Step;
use std::alloc::Global;
use std::marker::Model;
use trace_types::{OutOfMemory, Path, TIME_END, Value};

/// The values of attributes up to a built end. Contracts see the paths, the closed intervals as a
/// map from number and start to end and value, the open intervals by number, the number of steps,
/// the built end, in ns, and the tree whose content the closed intervals are.
#[derive(Debug, Drop)]
pub struct History {
    attributes: Attributes,
    tree: Tree,
    opened: OpenIntervals,
    count: u64,
    built: u64,
}

impl Model for History {
    ghost use Rattle.history_core.specs.Stands.{HistoryModel, kept_of};
    ghost use Rattle.history_tree.specs.Records.{content_of};
    ghost use Rattle.history_core.specs.Intervals.{AreKept};
    ghost use Rattle.history_core.specs.Codes.{kept_code};

    ghost Value = { HistoryModel };

    ghost coded = { kept_code };

    ghost view = { λ h. kept_of h.attributes.paths h.tree h.opened.intervals h.count h.built };

    ghost invariant = { λ h. AreKept h.attributes.paths (content_of h.tree.nodes) h.opened.intervals h.built };
}

impl History {
    /// A history of no step. The only error is lack of memory.
    pub fn new(alloc: Global) -> Result<History, OutOfMemory>
        ensures stands { IfOk result (λ history. Stands [] history) }
        ensures tree { IfOk result (λ history. history.tree ≡ tree_of (new_node 0 0 ∷ []) 0 0 0) }
    {
        Ok(History {
            attributes: Attributes::new(alloc),
            tree: Tree::new(alloc)?,
            opened: OpenIntervals::new(alloc),
            count: 0,
            built: 0,
        })
    }

    /// Takes a step that can follow those that were taken, which are fewer than 2^64 - 1. The only
    /// error is lack of memory, after which nothing has changed.
    pub fn apply(&mut self, step: Step) -> Result<(), OutOfMemory>
        requires follows { CanFollow self.old.paths self.old.built step }
        requires few { self.old.count < 2 ^ 64 - 1 }
        ensures stands { OnOk result ((steps : List Step) → Stands steps self.old → Stands (steps ++ step ∷ []) self.new) }
        ensures tree { OnOk result (IsTreeAfterStep self.old.tree self.old.opened step self.new.tree) }
        ensures err { OnErr result (self.new ≡ self.old) }
    {
        take(
            &mut self.attributes,
            &mut self.tree,
            &mut self.opened,
            &mut self.built,
            &step,
        )?;
        self.count += 1;
        Ok(())
    }

    /// The value of an attribute at an instant, in ns. It takes no memory.
    pub fn answer(&self, t: u64, path: Path) -> Answer
        ensures not_yet { self.now.built ≤ t → result ≡ NotYet self.now.built }
        ensures state { t < self.now.built → (value : Value) × (result ≡ State value) }
        ensures stands { (steps : List Step) → Stands steps self.now → result ≡ answer_after steps t path }
    {
        if t >= self.built {
            return Answer::NotYet { built: self.built };
        }
        let Some(number) = self.attributes.find(path) else {
            return Answer::State(Value::Null);
        };
        Answer::State(value_at(&self.tree, &self.opened, number, t))
    }

    /// The number of steps that were taken.
    pub fn count(&self) -> u64
        ensures { result ≡ self.now.count }
    {
        self.count
    }

    /// The time up to which the history is built, in ns.
    pub fn built(&self) -> u64
        ensures { result ≡ self.now.built }
    {
        self.built
    }

    /// The number of a path, if it was added.
    pub fn number(&self, path: Path) -> Option<usize>
        ensures number { result ≡ number_among self.now.paths path }
        ensures there { IfSome result (λ n. n < length self.now.paths) }
    {
        self.attributes.find(path)
    }

    /// The value that a number has up to the built end, and since when; none before its first change. Its closed intervals
    /// end before that.
    pub fn since(&self, number: usize) -> Option<Since>
        requires { number < length self.now.paths }
        ensures since { result ≡ open_at self.now.opened number }
        ensures older { EndBefore self.now.closed number result }
    {
        self.opened.get(number)
    }

    /// The tree whose content the closed intervals are.
    pub fn tree(&self) -> &Tree
        ensures tree { result.now ≡ self.now.tree }
        ensures content { content_of result.now.nodes ≡ self.now.closed }
    {
        &self.tree
    }
}

// Takes a step, or leaves all as it is when memory runs out.
fn take(
    attributes: &mut Attributes,
    tree: &mut Tree,
    opened: &mut OpenIntervals,
    built: &mut u64,
    step: &Step,
) -> Result<(), OutOfMemory>
    requires kept { AreKept attributes.old.paths (content_of tree.old.nodes) opened.old.intervals built.old }
    requires follows { CanFollow attributes.old.paths built.old step.now }
    ensures ok { OnOk result (parts_of attributes.new.paths (content_of tree.new.nodes) opened.new.intervals built.new ≡ taken (parts_of attributes.old.paths (content_of tree.old.nodes) opened.old.intervals built.old) step.now) }
    ensures tree { OnOk result (IsTreeAfterStep tree.old opened.old.intervals step.now tree.new) }
    ensures err { OnErr result ((attributes.new.paths ≡ attributes.old.paths) × (tree.new ≡ tree.old) × (opened.new.intervals ≡ opened.old.intervals) × (built.new ≡ built.old)) }
{
    match *step {
        Step::Advance(t) => *built = t,
        Step::Add(path) => {
            opened.reserve()?;
            attributes.add(path)?;
            opened.push_none();
        }
        Step::Change { t, number, value } => {
            let since = Since { start: t, value };
            return change(tree, opened, number, &since);
        }
        Step::Finish => *built = TIME_END,
    }
    Ok(())
}

// The value of a number at an instant.
fn value_at(tree: &Tree, opened: &OpenIntervals, number: usize, t: u64) -> Value
    requires number { number < length opened.now.intervals }
    requires time { t < TIME_END }
    ensures { IsValueIn (content_of tree.now.nodes) opened.now.intervals number t result }
{
    match opened.get(number) {
        Some(since) if since.start <= t => since.value,
        _ => value_held(tree, number, t),
    }
}

#[cfg(test)]
mod tests {
    use super::*;
    use std::test::Fail;

    // There is no second list of intervals beside the tree.
    #[test]
    fn a_history_is_its_tree_and_what_is_open(rt: HostRuntime) -> Result<(), Fail> {
        let History {
            attributes,
            tree,
            opened,
            count,
            built,
        } = History::new(rt.alloc())?;
        let attributes: Attributes = attributes;
        let tree: Tree = tree;
        let opened: OpenIntervals = opened;
        let numbers: (u64, u64) = (count, built);
        assert!(rt; attributes.is_empty());
        assert_eq!(rt; tree.levels(), 1);
        assert_eq!(rt; opened.len(), 0);
        assert_eq!(rt; numbers, (0, 0));
        Ok(())
    }
}
