//! The kinds of events whose fields were passed over.
ghost use Rattle.std.specs.Prelude.{◌≡◌, ◌+◌, ◌≤◌};
ghost use Rattle.ctf_fields.specs.Leaves.{IsSpan};
ghost use Rattle.ctf_fields.specs.declared.field.Field.{Field};
ghost use Rattle.read_plan.specs.Placed.{AreFieldsOf};
ghost use Rattle.kernel_layout.specs.Kinds.{kind_by, name_of};
ghost use Rattle.kernel_layout.specs.Plans.{IsPlan, struct_at};
ghost use Rattle.kernel_layout.specs.Tracepoints.{layout_of, skips_of};

use crate::kinds::{event_of, kind_of, name_of, or_other};
use crate::layout::Layout;
use crate::plan::EventPlan;
use crate::planned::PlannedFields;
use ctf_fields::{BitSpan, RawEvent};
use trace_types::KernelEvent;
use type_table::TraceMeta;

/// What an event is, as `kind_of` says of it with all of its fields, which were kept or begin at the bit `from`. It takes no
/// memory.
pub fn kind_from(
    meta: &TraceMeta,
    layout: &Layout,
    raw: &RawEvent,
    bits: BitSpan<'_>,
    from: Option<u64>,
) -> (KernelEvent, bool)
    requires layout { layout.now ≡ layout_of meta.now }
    requires span { IsSpan bits.bytes.now bits.end }
    ensures { (whole : Field) → AreFieldsOf meta.now bits.entry.bytes.now bits.entry.end (skips_of meta.now) raw.now.event whole raw.now.fields from → result ≡ kind_by meta.now (name_of meta.now raw.now.event) whole }
{
    meta.is_sound();
    let Some(at) = from else {
        return kind_of(meta, layout, raw);
    };
    match layout.plan(meta, raw.event) {
        Some(plan) => kind_planned(meta, layout, raw.event, plan, bits, at),
        None => kind_of(meta, layout, raw),
    }
}

// What an event is by its plan, where all of its bits are there.
fn kind_planned(
    meta: &TraceMeta,
    layout: &Layout,
    event: u32,
    plan: &EventPlan,
    bits: BitSpan<'_>,
    at: u64,
) -> (KernelEvent, bool)
    requires layout { layout.now ≡ layout_of meta.now }
    requires plan { IsPlan meta.now.table plan.now }
    requires span { IsSpan bits.bytes.now bits.end }
    ensures { at + plan.now.bits ≤ bits.entry.end → result ≡ kind_by meta.now (name_of meta.now event) (struct_at meta.now.table plan.now.ty bits.entry.bytes.now bits.entry.end at) }
{
    let name = name_of(meta, event);
    if at > bits.end || plan.bits > bits.end - at {
        return (KernelEvent::Other { name }, true);
    }
    let fields = PlannedFields {
        table: meta.table(),
        plan,
        bits,
        at,
    };
    or_other(name, event_of(layout.of(name), name, fields))
}
