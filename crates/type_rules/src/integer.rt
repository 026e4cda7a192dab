//! Integers and what their attributes say.
ghost use Rattle.std.specs.Prelude.{◌≡◌, ◌≤◌, ◌<◌, ◌%◌, ◌^◌, [], codes, false, length, position, unwrap_or, IfErr, IfNone, IfOk, IfSome, None, Some};
ghost use Rattle.indexmap.specs.IndexMap.{keys};
ghost use Rattle.trace_types.specs.Texts.{is_text};
ghost use Rattle.type_table.specs.Faults.{OnBreak};
ghost use Rattle.type_rules.specs.Attributes.{align_said, before_last, clock_said, clock_words, first_fault, integer_fault, integer_of, is_twice, order_said, own_fault, size_said, some_words, cause_unless, usual_align};
ghost use Rattle.type_scope.specs.Said.{is_named, said, same_words, sign_said, value_named};

use crate::seen::SeenPaths;
use crate::values::{align_said, dotted, order_said, size_said};
use indexmap::IndexMap;
use std::alloc::Global;
use trace_types::{ByteOrderKind, OutOfMemory, Text};
use tsdl_parser::{Attr, AttrValue};
use type_scope::{is_named, is_signed, sign_said, value_named};
use type_table::{ClockRate, Fault, Integer, MetaItemCause};

/// The integer of these attributes, or the cause of the first that breaks a rule. Its clock is one of those that
/// were declared before.
pub fn read_integer(
    alloc: Global,
    order: ByteOrderKind,
    clocks: &IndexMap<Text, ClockRate>,
    attrs: &[Attr],
) -> Result<Integer, Fault>
    requires { length (keys clocks.now) < 2 ^ 32 }
    ensures sound { IfOk result (λ i. (integer_fault order clocks.now.entries attrs.now ≡ None) × (i ≡ integer_of order clocks.now.entries attrs.now)) }
    ensures bounds { IfOk result (λ i. (1 ≤ i.size) × (i.size ≤ 64) × (1 ≤ i.align) × (65536 % i.align ≡ 0)) }
    ensures broken { OnBreak (λ cause. integer_fault order clocks.now.entries attrs.now ≡ Some cause) result }
{
    if let Some(cause) = first_fault(alloc, order, clocks, attrs)? {
        return Err(Fault::Breaks(cause));
    }
    let Some(size) = size_in(attrs) else {
        return Err(Fault::Breaks(MetaItemCause::BadAttribute));
    };
    Ok(Integer {
        size,
        align: align_in(attrs, size),
        signed: is_signed(attrs),
        order: order_in(order, attrs),
        clock: clock_in(alloc, clocks, attrs)?,
    })
}

fn size_in(attrs: &[Attr]) -> Option<u32>
    ensures said { result ≡ said size_said (codes "size") attrs.now }
    ensures sized { IfSome result (λ size. (1 ≤ size) × (size ≤ 64)) }
{
    size_said(value_named(attrs, b"size")?)
}

fn align_in(attrs: &[Attr], size: u32) -> u32
    ensures aligns { (1 ≤ result) × (65536 % result ≡ 0) }
    ensures said { result ≡ unwrap_or (said align_said (codes "align") attrs.now) (usual_align size) }
{
    let usual = if size % 8 == 0 { 8 } else { 1 };
    match value_named(attrs, b"align") {
        Some(value) => align_said(value).unwrap_or(usual),
        None => usual,
    }
}

fn order_in(order: ByteOrderKind, attrs: &[Attr]) -> ByteOrderKind
    ensures { result ≡ unwrap_or (said (order_said order) (codes "byte_order") attrs.now) order }
{
    match value_named(attrs, b"byte_order") {
        Some(value) => order_said(order, value).unwrap_or(order),
        None => order,
    }
}

fn clock_in(
    alloc: Global,
    clocks: &IndexMap<Text, ClockRate>,
    attrs: &[Attr],
) -> Result<Option<u32>, OutOfMemory>
    requires { length (keys clocks.now) < 2 ^ 32 }
    ensures { IfOk result (λ clock. clock ≡ said (clock_said clocks.now.entries) (codes "map") attrs.now) }
{
    match value_named(attrs, b"map") {
        Some(value) => clock_said(alloc, clocks, value),
        None => Ok(None),
    }
}

// The first attribute that stands twice or breaks its rule.
fn first_fault(
    alloc: Global,
    order: ByteOrderKind,
    clocks: &IndexMap<Text, ClockRate>,
    attrs: &[Attr],
) -> Result<Option<MetaItemCause>, OutOfMemory>
    requires { length (keys clocks.now) < 2 ^ 32 }
    ensures { IfOk result (λ found. found ≡ first_fault order clocks.now.entries [] attrs.now) }
{
    let mut seen = SeenPaths::with_capacity(alloc, attrs.len())?;
    for attr in attrs {
        if seen.note(attr.path.as_slice())? {
            return Ok(Some(MetaItemCause::BadAttribute));
        }
        if let Some(cause) = own_fault(alloc, order, clocks, attr)? {
            return Ok(Some(cause));
        }
    }
    Ok(None)
}

/// Whether the braces of a string name an attribute twice.
pub fn is_twice(alloc: Global, attrs: &[Attr]) -> Result<bool, OutOfMemory>
    ensures { IfOk result (λ twice. twice ≡ is_twice [] attrs.now) }
{
    let mut seen = SeenPaths::with_capacity(alloc, attrs.len())?;
    for attr in attrs {
        if seen.note(attr.path.as_slice())? {
            return Ok(true);
        }
    }
    Ok(false)
}

// An attribute that breaks its rule by itself.
fn own_fault(
    alloc: Global,
    order: ByteOrderKind,
    clocks: &IndexMap<Text, ClockRate>,
    attr: &Attr,
) -> Result<Option<MetaItemCause>, OutOfMemory>
    requires { length (keys clocks.now) < 2 ^ 32 }
    ensures { IfOk result (λ fault. fault ≡ own_fault order clocks.now.entries attr.now) }
{
    let value = &attr.value;
    let cause = if is_named(attr, b"size") {
        cause_unless(size_said(value).is_some(), MetaItemCause::BadAttribute)
    } else if is_named(attr, b"align") {
        cause_unless(align_said(value).is_some(), MetaItemCause::BadAttribute)
    } else if is_named(attr, b"signed") {
        cause_unless(sign_said(value).is_some(), MetaItemCause::BadAttribute)
    } else if is_named(attr, b"byte_order") {
        cause_unless(
            order_said(order, value).is_some(),
            MetaItemCause::BadAttribute,
        )
    } else if is_named(attr, b"map") {
        cause_unless(
            clock_said(alloc, clocks, value)?.is_some(),
            MetaItemCause::BadReference,
        )
    } else {
        None
    };
    Ok(cause)
}

fn cause_unless(holds: bool, cause: MetaItemCause) -> Option<MetaItemCause>
    ensures { result ≡ cause_unless holds cause }
{
    if holds { None } else { Some(cause) }
}

// `clock.NAME.value`, where NAME is a word or a path.
fn clock_said(
    alloc: Global,
    clocks: &IndexMap<Text, ClockRate>,
    value: &AttrValue,
) -> Result<Option<u32>, OutOfMemory>
    requires { length (keys clocks.now) < 2 ^ 32 }
    ensures { IfOk result (λ index. index ≡ clock_said clocks.now.entries value.now) }
{
    let AttrValue::Path(words) = value else {
        return Ok(None);
    };
    match clock_words(words.as_slice()) {
        Some(name) => {
            let name = dotted(alloc, name)?;
            Ok(clock_index(clocks, &name))
        }
        None => Ok(None),
    }
}

// The words between `clock` and `value`, of which there is one at least.
fn clock_words(words: &[Text]) -> Option<&[Text]>
    ensures found { IfSome result (λ name. clock_words words.now ≡ Some name.now) }
    ensures none { IfNone result (clock_words words.now ≡ None) }
{
    match words {
        [clock, rest @ ..] if clock.as_bytes() == b"clock".as_slice() => name_words(rest),
        _ => None,
    }
}

// The words before `value`, of which there is one at least.
fn name_words(words: &[Text]) -> Option<&[Text]>
    ensures found { IfSome result (λ name. some_words (before_last (codes "value") words.now) ≡ Some name.now) }
    ensures none { IfNone result (some_words (before_last (codes "value") words.now) ≡ None) }
{
    let [name @ .., value] = words else {
        return None;
    };
    if value.as_bytes() == b"value".as_slice() && !name.is_empty() {
        Some(name)
    } else {
        None
    }
}

/// The index of a clock's name.
pub fn clock_index(clocks: &IndexMap<Text, ClockRate>, name: &Text) -> Option<u32>
    requires { length (keys clocks.now) < 2 ^ 32 }
    ensures { result ≡ position (is_text name.now) (keys clocks.now) }
{
    match clocks.get_index_of(name) {
        Some(index) => Some(index as u32),
        None => None,
    }
}
