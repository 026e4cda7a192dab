//! Declarations: aliases, named types and blocks.
ghost use Rattle.tsdl_parser.specs.Parsers.{Reads};
ghost use Rattle.tsdl_parser.specs.Reading as spec;

use crate::cursor::Cursor;
use crate::enumerations::enum_tree;
use crate::fault::Fault;
use crate::symbol::Symbol;
use crate::tree::{Attr, BlockKind, Entry, Item};
use crate::types::{struct_tree, type_tree, variant_tree};
use crate::values::{attr_value, path, words};
use sqlite_items::Items;
use std::alloc::Global;
use trace_types::MAX_BRACES;

/// A declaration, its semicolon included.
#[tactic(auto, unfolding(crate::specs::Reading::item))]
pub fn item(alloc: Global, tokens: &mut Cursor<'_>) -> Result<Item, Fault>
    ensures { Reads (spec.item tokens.old) result tokens.new }
{
    let item = declaration(alloc, tokens)?;
    tokens.expect(Symbol::Semicolon)?;
    Ok(item)
}

#[tactic(auto, unfolding(crate::specs::Reading::declaration, crate::specs::Reading::item_by))]
fn declaration(alloc: Global, tokens: &mut Cursor<'_>) -> Result<Item, Fault>
    ensures { Reads (spec.declaration tokens.old) result tokens.new }
{
    match tokens.peek() {
        Symbol::Typealias => alias(alloc, tokens),
        Symbol::Struct => {
            tokens.skip();
            Ok(Item::Struct(struct_tree(alloc, tokens, MAX_BRACES)?))
        }
        Symbol::Variant => {
            tokens.skip();
            Ok(Item::Variant(variant_tree(alloc, tokens, MAX_BRACES)?))
        }
        Symbol::Enum => {
            tokens.skip();
            Ok(Item::Enum(enum_tree(alloc, tokens)?))
        }
        Symbol::Trace => block(alloc, tokens, BlockKind::Trace),
        Symbol::Stream => block(alloc, tokens, BlockKind::Stream),
        Symbol::Event => block(alloc, tokens, BlockKind::Event),
        Symbol::Clock => block(alloc, tokens, BlockKind::Clock),
        Symbol::Env => block(alloc, tokens, BlockKind::Env),
        Symbol::Callsite => block(alloc, tokens, BlockKind::Callsite),
        _ => Err(Fault::Refused),
    }
}

// `'typealias' type ':=' words`
#[tactic(auto, unfolding(crate::specs::Reading::alias))]
fn alias(alloc: Global, tokens: &mut Cursor<'_>) -> Result<Item, Fault>
    ensures { Reads (spec.alias tokens.old) result tokens.new }
{
    tokens.skip();
    let ty = type_tree(alloc, tokens, MAX_BRACES)?;
    tokens.expect(Symbol::Declare)?;
    let words = words(alloc, tokens)?;
    Ok(Item::Alias { ty, words })
}

// A block and its entries.
#[tactic(auto, unfolding(crate::specs::Reading::block))]
fn block(alloc: Global, tokens: &mut Cursor<'_>, kind: BlockKind) -> Result<Item, Fault>
    ensures { Reads (spec.block kind tokens.old) result tokens.new }
{
    tokens.skip();
    let entries = entries(alloc, tokens)?;
    Ok(Item::Block { kind, entries })
}

// `'{' entry* '}'`
fn entries(alloc: Global, tokens: &mut Cursor<'_>) -> Result<Items<Entry>, Fault>
    ensures { Reads (spec.entries tokens.old) result tokens.new }
{
    tokens.expect(Symbol::OpenBrace)?;
    let mut found = Items::new(alloc);
    for _turn in 0..tokens.left() {
        if tokens.eat(Symbol::CloseBrace) {
            return Ok(found);
        }
        found.push(entry(alloc, tokens)?)?;
    }
    Err(Fault::Refused)
}

// `path '=' value ';'` or `path ':=' type ';'`
#[tactic(auto, unfolding(crate::specs::Reading::entry))]
fn entry(alloc: Global, tokens: &mut Cursor<'_>) -> Result<Entry, Fault>
    ensures { Reads (spec.entry tokens.old) result tokens.new }
{
    let path = path(alloc, tokens)?;
    if tokens.eat(Symbol::Assign) {
        let value = attr_value(alloc, tokens)?;
        tokens.expect(Symbol::Semicolon)?;
        return Ok(Entry::Assign(Attr { path, value }));
    }
    tokens.expect(Symbol::Declare)?;
    let ty = type_tree(alloc, tokens, MAX_BRACES)?;
    tokens.expect(Symbol::Semicolon)?;
    Ok(Entry::Declare { path, ty })
}
