//! Enumerations.
ghost use Rattle.tsdl_parser.specs.Parsers as parser;
ghost use Rattle.tsdl_parser.specs.Parsers.{Reads};
ghost use Rattle.tsdl_parser.specs.Reading as spec;
ghost use Rattle.tsdl_parser.specs.declared.symbol.Symbol.TheVariants as symbol;

use crate::cursor::Cursor;
use crate::fault::Fault;
use crate::symbol::Symbol;
use crate::tree::{EnumBase, EnumTree, Label};
use crate::values::{attrs, signed, words};
use sqlite_items::Items;
use std::alloc::Global;
use trace_types::Text;

/// An enumeration, after its keyword.
#[tactic(auto, unfolding(crate::specs::Reading::enum_tree))]
pub fn enum_tree(alloc: Global, tokens: &mut Cursor<'_>) -> Result<EnumTree, Fault>
    ensures { Reads (spec.enum_tree tokens.old) result tokens.new }
{
    let name = tokens.name_if_any(alloc)?;
    let base = base_if_any(alloc, tokens)?;
    let labels = labels_if_any(alloc, tokens)?;
    if name.is_some() || labels.is_some() {
        Ok(EnumTree { name, base, labels })
    } else {
        Err(Fault::Refused)
    }
}

// `(':' ('integer' attrs | words))?`
fn base_if_any(alloc: Global, tokens: &mut Cursor<'_>) -> Result<Option<EnumBase>, Fault>
    ensures { Reads (parser.if_seen symbol.Colon spec.enum_base tokens.old) result tokens.new }
{
    if tokens.sees(Symbol::Colon) {
        Ok(Some(enum_base(alloc, tokens)?))
    } else {
        Ok(None)
    }
}

#[tactic(auto, unfolding(crate::specs::Reading::enum_base, crate::specs::Reading::base_by))]
fn enum_base(alloc: Global, tokens: &mut Cursor<'_>) -> Result<EnumBase, Fault>
    ensures { Reads (spec.enum_base tokens.old) result tokens.new }
{
    tokens.skip();
    match tokens.peek() {
        Symbol::Integer => {
            tokens.skip();
            Ok(EnumBase::Integer(attrs(alloc, tokens)?))
        }
        _ => Ok(EnumBase::Words(words(alloc, tokens)?)),
    }
}

// `('{' label (',' label)* ','? '}')?`
fn labels_if_any(alloc: Global, tokens: &mut Cursor<'_>) -> Result<Option<Items<Label>>, Fault>
    ensures { Reads (parser.if_seen symbol.OpenBrace spec.labels tokens.old) result tokens.new }
{
    if tokens.sees(Symbol::OpenBrace) {
        Ok(Some(labels(alloc, tokens)?))
    } else {
        Ok(None)
    }
}

fn labels(alloc: Global, tokens: &mut Cursor<'_>) -> Result<Items<Label>, Fault>
    ensures { Reads (spec.labels tokens.old) result tokens.new }
{
    tokens.expect(Symbol::OpenBrace)?;
    let mut found = Items::new(alloc);
    for _turn in 0..tokens.left() {
        found.push(label(alloc, tokens)?)?;
        let more = tokens.eat(Symbol::Comma);
        if tokens.eat(Symbol::CloseBrace) {
            return Ok(found);
        }
        if !more {
            return Err(Fault::Refused);
        }
    }
    Err(Fault::Refused)
}

// `(name | string) ('=' signed ('...' signed)?)?`
#[tactic(auto, unfolding(crate::specs::Reading::label))]
fn label(alloc: Global, tokens: &mut Cursor<'_>) -> Result<Label, Fault>
    ensures { Reads (spec.label tokens.old) result tokens.new }
{
    let name = label_name(alloc, tokens)?;
    if !tokens.eat(Symbol::Assign) {
        return Ok(Label {
            name,
            low: None,
            high: None,
        });
    }
    let low = Some(signed(tokens)?);
    let high = range_end(tokens)?;
    Ok(Label { name, low, high })
}

#[tactic(auto, unfolding(crate::specs::Reading::label_name, crate::specs::Reading::label_name_by))]
fn label_name(alloc: Global, tokens: &mut Cursor<'_>) -> Result<Text, Fault>
    ensures { Reads (spec.label_name tokens.old) result tokens.new }
{
    match tokens.peek() {
        Symbol::Str => tokens.string(alloc),
        _ => tokens.name(alloc),
    }
}

#[tactic(auto, unfolding(crate::specs::Reading::range_end))]
fn range_end(tokens: &mut Cursor<'_>) -> Result<Option<i128>, Fault>
    ensures { Reads (spec.range_end tokens.old) result tokens.new }
{
    if !tokens.sees(Symbol::Ellipsis) {
        return Ok(None);
    }
    tokens.skip();
    Ok(Some(signed(tokens)?))
}
