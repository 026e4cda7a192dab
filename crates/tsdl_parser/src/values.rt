//! Paths, words, values and attributes.
ghost use Rattle.tsdl_parser.specs.Parsers.{Reads};
ghost use Rattle.tsdl_parser.specs.Reading as spec;

use crate::cursor::Cursor;
use crate::fault::Fault;
use crate::symbol::Symbol;
use crate::tree::{Attr, AttrValue};
use sqlite_items::Items;
use std::alloc::Global;
use trace_types::Text;

/// `word ('.' word)*`
pub fn path(alloc: Global, tokens: &mut Cursor<'_>) -> Result<Items<Text>, Fault>
    ensures { Reads (spec.path tokens.old) result tokens.new }
{
    let mut found = Items::new(alloc);
    found.push(tokens.word(alloc)?)?;
    for _turn in 0..tokens.left() {
        if !tokens.eat(Symbol::Dot) {
            return Ok(found);
        }
        found.push(tokens.word(alloc)?)?;
    }
    Ok(found)
}

/// `name+`
pub fn words(alloc: Global, tokens: &mut Cursor<'_>) -> Result<Items<Text>, Fault>
    ensures { Reads (spec.words tokens.old) result tokens.new }
{
    let mut found = Items::new(alloc);
    found.push(tokens.name(alloc)?)?;
    for _turn in 0..tokens.left() {
        if !tokens.sees(Symbol::Name) {
            return Ok(found);
        }
        found.push(tokens.word(alloc)?)?;
    }
    Ok(found)
}

/// `'-'? number`
#[tactic(auto, unfolding(crate::specs::Reading::signed))]
pub fn signed(tokens: &mut Cursor<'_>) -> Result<i128, Fault>
    ensures { Reads (spec.signed tokens.old) result tokens.new }
{
    let minus = tokens.eat(Symbol::Minus);
    let number = i128::from(tokens.number()?);
    Ok(if minus { -number } else { number })
}

/// `signed | string | path`
#[tactic(auto, unfolding(crate::specs::Reading::attr_value, crate::specs::Reading::value_by))]
pub fn attr_value(alloc: Global, tokens: &mut Cursor<'_>) -> Result<AttrValue, Fault>
    ensures { Reads (spec.attr_value tokens.old) result tokens.new }
{
    match tokens.peek() {
        Symbol::Minus | Symbol::Number => Ok(AttrValue::Signed(signed(tokens)?)),
        Symbol::Str => Ok(AttrValue::Str(tokens.string(alloc)?)),
        _ => Ok(AttrValue::Path(path(alloc, tokens)?)),
    }
}

// `path '=' value ';'`
#[tactic(auto, unfolding(crate::specs::Reading::attr))]
fn attr(alloc: Global, tokens: &mut Cursor<'_>) -> Result<Attr, Fault>
    ensures { Reads (spec.attr tokens.old) result tokens.new }
{
    let path = path(alloc, tokens)?;
    tokens.expect(Symbol::Assign)?;
    let value = attr_value(alloc, tokens)?;
    tokens.expect(Symbol::Semicolon)?;
    Ok(Attr { path, value })
}

/// `'{' (path '=' value ';')* '}'`
pub fn attrs(alloc: Global, tokens: &mut Cursor<'_>) -> Result<Items<Attr>, Fault>
    ensures { Reads (spec.attrs tokens.old) result tokens.new }
{
    tokens.expect(Symbol::OpenBrace)?;
    let mut found = Items::new(alloc);
    for _turn in 0..tokens.left() {
        if tokens.eat(Symbol::CloseBrace) {
            return Ok(found);
        }
        found.push(attr(alloc, tokens)?)?;
    }
    Err(Fault::Refused)
}
