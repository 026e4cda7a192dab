//! The kinds of a trace's event names, and what is known beforehand of how its events are read.
ghost use Rattle.std.specs.Prelude.{◌≡◌, true, IfOk, IfSome, map};
ghost use Rattle.std.specs.Option.{option_copied};
ghost use Rattle.read_plan.specs.Contexts.{AreContextPlans, context_plans};
ghost use Rattle.read_plan.specs.FixedSizes.{AreSkips};
ghost use Rattle.read_plan.specs.Lone.{HasLoneContexts, IsLone, contexts_are_lone, headers_are_lone};
ghost use Rattle.kernel_layout.specs.Plans.{IsPlan, plan_at, plan_of};
ghost use Rattle.kernel_layout.specs.Skips.{kind_at, needs_fields, skip_of};
ghost use Rattle.kernel_layout.specs.Tracepoints.{kinds_of, layout_of, plans_of, skips_of};

use crate::known::known_of;
use crate::plan::{EventPlan, plan_of};
use crate::sought::Sought;
use crate::tracepoint::kind_named;
use read_plan::{
    ContextPlan, FixedSize, KnownContexts, context_plans, contexts_are_lone, fixed_sizes,
    headers_are_lone, size_at,
};
use sqlite_items::Boxed;
use std::alloc::Global;
use std::marker::Model;
use trace_types::{EventKind, OutOfMemory};
use type_table::{EventParts, TraceMeta};

/// The kind of each event name of a trace, how many bits of each event may be passed over, whether any type looks into the
/// headers of events, which names of fields are those that kinds are told by, by which plans events and packets' contexts are
/// read, and whether any type looks into contexts, decided once. Contracts see the lists and these answers.
#[derive(Debug, Drop)]
pub struct Layout {
    kinds: Vec<EventKind>,
    skips: Vec<Option<u64>>,
    lone: bool,
    known: Vec<Option<Sought>>,
    plans: Vec<Option<EventPlan>>,
    contexts: Vec<Option<Boxed<ContextPlan>>>,
    lone_contexts: bool,
}

impl Model for Layout {
    ghost use Rattle.kernel_layout.specs.Tracepoints.{LayoutModel};

    ghost Value = { LayoutModel };

    ghost view = { λ l. record { kinds = l.kinds.items; skips = l.skips.items; lone = l.lone; known = l.known.items; plans = l.plans.items; contexts = l.contexts.items; lone_contexts = l.lone_contexts } };
}

impl Layout {
    /// The kinds of a trace's event names, and what is known beforehand of how its events are read. The only error is lack of
    /// memory.
    pub fn new(alloc: Global, meta: &TraceMeta) -> Result<Layout, OutOfMemory>
        ensures { IfOk result (λ layout. layout ≡ layout_of meta.now) }
    {
        let kinds = kinds_of(alloc, meta)?;
        let plans = plans_by(alloc, meta, kinds.as_slice())?;
        let skips = skips_of(alloc, meta, kinds.as_slice(), plans.as_slice())?;
        let lone = headers_are_lone(meta.table())?;
        let known = known_of(alloc, meta.table())?;
        let contexts = context_plans(alloc, meta.table())?;
        let lone_contexts = contexts_are_lone(meta.table())?;
        Ok(Layout {
            kinds,
            skips,
            lone,
            known,
            plans,
            contexts,
            lone_contexts,
        })
    }

    /// For each event that the trace declares how many bits its fields take, where they may be passed over: its kind
    /// needs none of them, or they are read by a plan, and they take as many wherever they begin at a whole byte.
    #[tactic(auto, using(crate::proofs::PassedOver::are_skips))]
    pub fn skips(&self, meta: &TraceMeta) -> &[Option<u64>]
        requires { self.now ≡ layout_of meta.now }
        ensures skips { result.now ≡ skips_of meta.now }
        ensures sound { AreSkips meta.now result.now }
    {
        let _ = meta;
        self.skips.as_slice()
    }

    /// Whether no type of the trace looks into the headers of events.
    #[tactic(auto, using(read_plan::proofs::LoneReads::is_lone))]
    pub fn lone(&self, meta: &TraceMeta) -> bool
        requires { self.now ≡ layout_of meta.now }
        ensures is { result ≡ headers_are_lone meta.now.table }
        ensures lone { result ≡ true → IsLone meta.now.table }
    {
        let _ = meta;
        self.lone
    }

    /// The plans by which packets' contexts are read, and whether no type of the trace looks into contexts.
    #[tactic(auto, using(read_plan::proofs::Contexts::are_context_plans, read_plan::proofs::LoneReads::lone_contexts))]
    pub fn contexts(&self, meta: &TraceMeta) -> KnownContexts<'_>
        requires { self.now ≡ layout_of meta.now }
        ensures is { result.plans.now ≡ context_plans meta.now.table }
        ensures is_lone { result.lone ≡ contexts_are_lone meta.now.table }
        ensures plans { AreContextPlans meta.now.table result.plans.now }
        ensures lone { result.lone ≡ true → HasLoneContexts meta.now.table }
    {
        meta.is_sound();
        KnownContexts {
            plans: self.contexts.as_slice(),
            lone: self.lone_contexts,
        }
    }

    /// For each name of a field, by its number, the one that it counts as of those that kinds are told by.
    pub(crate) fn known(&self) -> &[Option<Sought>]
        ensures { result.now ≡ self.now.known }
    {
        self.known.as_slice()
    }

    /// The plan by which the fields of an event are read, if it has one.
    pub(crate) fn plan(&self, meta: &TraceMeta, event: u32) -> Option<&EventPlan>
        requires { self.now ≡ layout_of meta.now }
        ensures is { option_copied result ≡ plan_at (plans_of meta.now) event }
        ensures plan { IfSome result (λ plan. IsPlan meta.now.table plan.now) }
    {
        meta.is_sound();
        plan_at(self.plans.as_slice(), event)
    }

    /// The kind of the name of this number.
    pub fn of(&self, name: u32) -> EventKind
        ensures { result ≡ kind_at self.now.kinds name }
    {
        kind_at(self.kinds.as_slice(), name)
    }
}

// The kinds of a trace's event names.
fn kinds_of(alloc: Global, meta: &TraceMeta) -> Result<Vec<EventKind>, OutOfMemory>
    ensures { IfOk result (λ kinds. kinds.items ≡ kinds_of meta.now) }
{
    meta.is_sound();
    let mut kinds = Vec::new(alloc);
    let mut number = 0u32;
    while let Some(name) = meta.event_name(number) {
        kinds.push(kind_named(name))?;
        number += 1;
    }
    Ok(kinds)
}

/// The kind of the name of this number.
pub fn kind_at(kinds: &[EventKind], name: u32) -> EventKind
    ensures { result ≡ kind_at kinds.now name }
{
    match kinds.get(name as usize) {
        Some(found) => *found,
        None => EventKind::Other,
    }
}

// The plan of each event.
fn plans_by(
    alloc: Global,
    meta: &TraceMeta,
    kinds: &[EventKind],
) -> Result<Vec<Option<EventPlan>>, OutOfMemory>
    ensures { IfOk result (λ plans. plans.items ≡ map (λ e. plan_of meta.now.table kinds.now e.1) meta.now.declared.events) }
{
    meta.is_sound();
    let mut plans = Vec::new(alloc);
    let mut number = 0u32;
    while let Some((_, parts)) = meta.event(number) {
        plans.push(plan_of(alloc, meta.table(), kinds, parts)?)?;
        number += 1;
    }
    Ok(plans)
}

// How many bits of each event may be passed over.
fn skips_of(
    alloc: Global,
    meta: &TraceMeta,
    kinds: &[EventKind],
    plans: &[Option<EventPlan>],
) -> Result<Vec<Option<u64>>, OutOfMemory>
    requires kinds { kinds.now ≡ kinds_of meta.now }
    requires plans { plans.now ≡ plans_of meta.now }
    ensures { IfOk result (λ skips. skips.items ≡ skips_of meta.now) }
{
    let sizes = fixed_sizes(alloc, meta.table())?;
    skips_by(alloc, meta, kinds, sizes.as_slice(), plans)
}

fn skips_by(
    alloc: Global,
    meta: &TraceMeta,
    kinds: &[EventKind],
    sizes: &[Option<FixedSize>],
    plans: &[Option<EventPlan>],
) -> Result<Vec<Option<u64>>, OutOfMemory>
    requires { plans.now ≡ map (λ e. plan_of meta.now.table kinds.now e.1) meta.now.declared.events }
    ensures { IfOk result (λ skips. skips.items ≡ map (λ e. skip_of kinds.now sizes.now (plan_of meta.now.table kinds.now e.1) e.1) meta.now.declared.events) }
{
    meta.is_sound();
    let mut skips = Vec::new(alloc);
    let mut number = 0u32;
    while let Some((_, parts)) = meta.event(number) {
        skips.push(skip_of(kinds, sizes, plan_at(plans, number), parts))?;
        number += 1;
    }
    Ok(skips)
}

// The plan of the event of this number.
fn plan_at(plans: &[Option<EventPlan>], event: u32) -> Option<&EventPlan>
    ensures { option_copied result ≡ plan_at plans.now event }
{
    plans.get(event as usize)?.as_ref()
}

// How many bits of an event may be passed over.
fn skip_of(
    kinds: &[EventKind],
    sizes: &[Option<FixedSize>],
    plan: Option<&EventPlan>,
    parts: EventParts,
) -> Option<u64>
    ensures { result ≡ skip_of kinds.now sizes.now (option_copied plan.entry) parts }
{
    if needs_fields(kind_at(kinds, parts.name)) && plan.is_none() {
        return None;
    }
    match parts.fields {
        Some(ty) => Some(size_at(sizes, ty)?.bits),
        None => Some(0),
    }
}

/// Whether an event of this kind is told by its fields.
pub fn needs_fields(kind: EventKind) -> bool
    ensures { result ≡ needs_fields kind }
{
    !matches!(
        kind,
        EventKind::CallIn | EventKind::CallOut | EventKind::Other
    )
}
