//! Types and the fields that they hold.
ghost use Rattle.std.specs.Prelude.{◌≤◌};
ghost use Rattle.tsdl_parser.specs.Parsers as parser;
ghost use Rattle.tsdl_parser.specs.Parsers.{Reads};
ghost use Rattle.tsdl_parser.specs.Reading as spec;
ghost use Rattle.tsdl_parser.specs.Reading.{Apart};
ghost use Rattle.tsdl_parser.specs.declared.symbol.Symbol.TheVariants as symbol;

use crate::cursor::Cursor;
use crate::enumerations::enum_tree;
use crate::fault::Fault;
use crate::symbol::Symbol;
use crate::tree::{
    Attr, Dim, EnumBase, EnumTree, FieldTree, StructBody, StructTree, TypeTree, VariantTree,
};
use crate::values::{attrs, path, words};
use sqlite_items::Items;
use std::alloc::Global;
use trace_types::Text;

/// A type. Structures and variants may stand in one another so deep.
#[cycle(types)]
#[tactic(auto, unfolding(crate::specs::Reading::type_tree, crate::specs::Reading::type_by))]
pub fn type_tree(alloc: Global, tokens: &mut Cursor<'_>, depth: u32) -> Result<TypeTree, Fault>
    ensures { Reads (spec.type_tree (spec.fields depth) tokens.old) result tokens.new }
{
    match tokens.peek() {
        Symbol::Integer => {
            tokens.skip();
            Ok(TypeTree::Integer(attrs(alloc, tokens)?))
        }
        Symbol::FloatingPoint => {
            tokens.skip();
            Ok(TypeTree::Float(attrs(alloc, tokens)?))
        }
        Symbol::String => {
            tokens.skip();
            Ok(TypeTree::Str(attrs_if_any(alloc, tokens)?))
        }
        Symbol::Struct => {
            tokens.skip();
            Ok(TypeTree::Struct(struct_tree(alloc, tokens, depth)?))
        }
        Symbol::Variant => {
            tokens.skip();
            Ok(TypeTree::Variant(variant_tree(alloc, tokens, depth)?))
        }
        Symbol::Enum => {
            tokens.skip();
            Ok(TypeTree::Enum(enum_tree(alloc, tokens)?))
        }
        _ => Ok(TypeTree::Words(words(alloc, tokens)?)),
    }
}

fn attrs_if_any(alloc: Global, tokens: &mut Cursor<'_>) -> Result<Option<Items<Attr>>, Fault>
    ensures { Reads (parser.if_seen symbol.OpenBrace spec.attrs tokens.old) result tokens.new }
{
    if tokens.sees(Symbol::OpenBrace) {
        Ok(Some(attrs(alloc, tokens)?))
    } else {
        Ok(None)
    }
}

/// A structure, after its keyword.
#[cycle(types)]
#[tactic(auto, unfolding(crate::specs::Reading::struct_tree))]
pub fn struct_tree(alloc: Global, tokens: &mut Cursor<'_>, depth: u32) -> Result<StructTree, Fault>
    ensures { Reads (spec.struct_tree (spec.fields depth) tokens.old) result tokens.new }
{
    let name = tokens.name_if_any(alloc)?;
    let body = body_if_any(alloc, tokens, depth)?;
    if name.is_some() || body.is_some() {
        Ok(StructTree { name, body })
    } else {
        Err(Fault::Refused)
    }
}

#[cycle(types)]
#[tactic(auto, unfolding(crate::specs::Reading::struct_body))]
fn body_if_any(
    alloc: Global,
    tokens: &mut Cursor<'_>,
    depth: u32,
) -> Result<Option<StructBody>, Fault>
    ensures { Reads (parser.if_seen symbol.OpenBrace (spec.struct_body (spec.fields depth)) tokens.old) result tokens.new }
{
    if !tokens.sees(Symbol::OpenBrace) {
        return Ok(None);
    }
    let fields = fields(alloc, tokens, depth)?;
    let align = align(tokens)?;
    Ok(Some(StructBody { fields, align }))
}

// `('align' '(' number ')')?`
#[tactic(auto, unfolding(crate::specs::Reading::align))]
fn align(tokens: &mut Cursor<'_>) -> Result<Option<u64>, Fault>
    ensures { Reads (spec.align tokens.old) result tokens.new }
{
    if !tokens.sees_align() {
        return Ok(None);
    }
    tokens.skip();
    tokens.skip();
    let number = tokens.number()?;
    tokens.expect(Symbol::CloseParen)?;
    Ok(Some(number))
}

/// A variant, after its keyword.
#[cycle(types)]
#[tactic(auto, unfolding(crate::specs::Reading::variant_tree))]
pub fn variant_tree(
    alloc: Global,
    tokens: &mut Cursor<'_>,
    depth: u32,
) -> Result<VariantTree, Fault>
    ensures { Reads (spec.variant_tree (spec.fields depth) tokens.old) result tokens.new }
{
    let name = tokens.name_if_any(alloc)?;
    let tag = tag_if_any(alloc, tokens)?;
    let body = fields_if_any(alloc, tokens, depth)?;
    if name.is_some() || body.is_some() {
        Ok(VariantTree { name, tag, body })
    } else {
        Err(Fault::Refused)
    }
}

// `('<' path '>')?`
#[tactic(auto, unfolding(crate::specs::Reading::tag))]
fn tag_if_any(alloc: Global, tokens: &mut Cursor<'_>) -> Result<Option<Items<Text>>, Fault>
    ensures { Reads (parser.if_seen symbol.Less spec.tag tokens.old) result tokens.new }
{
    if !tokens.sees(Symbol::Less) {
        return Ok(None);
    }
    tokens.skip();
    let tag = path(alloc, tokens)?;
    tokens.expect(Symbol::Greater)?;
    Ok(Some(tag))
}

#[cycle(types)]
fn fields_if_any(
    alloc: Global,
    tokens: &mut Cursor<'_>,
    depth: u32,
) -> Result<Option<Items<FieldTree>>, Fault>
    ensures { Reads (parser.if_seen symbol.OpenBrace (spec.fields depth) tokens.old) result tokens.new }
{
    if tokens.sees(Symbol::OpenBrace) {
        Ok(Some(fields(alloc, tokens, depth)?))
    } else {
        Ok(None)
    }
}

// `'{' field* '}'`
#[cycle(types)]
fn fields(alloc: Global, tokens: &mut Cursor<'_>, depth: u32) -> Result<Items<FieldTree>, Fault>
    ensures { Reads (spec.fields depth tokens.old) result tokens.new }
{
    if depth == 0 {
        return Err(Fault::Refused);
    }
    tokens.expect(Symbol::OpenBrace)?;
    let mut found = Items::new(alloc);
    for _turn in 0..tokens.left() {
        if tokens.eat(Symbol::CloseBrace) {
            return Ok(found);
        }
        found.push(field(alloc, tokens, depth - 1)?)?;
    }
    Err(Fault::Refused)
}

// `type name ('[' (number | path) ']')* ';'`
#[cycle(types)]
#[tactic(auto, unfolding(crate::specs::Reading::field))]
fn field(alloc: Global, tokens: &mut Cursor<'_>, depth: u32) -> Result<FieldTree, Fault>
    ensures { Reads (spec.field (spec.fields depth) tokens.old) result tokens.new }
{
    let (ty, name) = typed(alloc, tokens, depth)?;
    let dims = dims(alloc, tokens)?;
    tokens.expect(Symbol::Semicolon)?;
    Ok(FieldTree { ty, name, dims })
}

// A field's type and its name. Of words that end the type, the last is the name.
#[cycle(types)]
#[tactic(auto, unfolding(crate::specs::Reading::typed, crate::specs::Reading::typed_by, crate::specs::Reading::last_apart))]
fn typed(alloc: Global, tokens: &mut Cursor<'_>, depth: u32) -> Result<(TypeTree, Text), Fault>
    ensures { Reads (spec.typed (spec.fields depth) tokens.old) result tokens.new }
{
    match tokens.peek() {
        Symbol::Name => {
            let (words, name) = last_apart(words(alloc, tokens)?)?;
            Ok((TypeTree::Words(words), name))
        }
        Symbol::Enum => {
            tokens.skip();
            let enumeration = enum_tree(alloc, tokens)?;
            let (enumeration, name) = enum_named(alloc, tokens, enumeration)?;
            Ok((TypeTree::Enum(enumeration), name))
        }
        _ => {
            let ty = type_tree(alloc, tokens, depth)?;
            let name = tokens.name(alloc)?;
            Ok((ty, name))
        }
    }
}

// An enumeration and the name of the field that is of it.
#[tactic(auto, unfolding(crate::specs::Reading::enum_named, crate::specs::Reading::last_apart))]
fn enum_named(
    alloc: Global,
    tokens: &mut Cursor<'_>,
    enumeration: EnumTree,
) -> Result<(EnumTree, Text), Fault>
    ensures { Reads (spec.enum_named enumeration tokens.old) result tokens.new }
{
    if enumeration.labels.is_some() {
        let name = tokens.name(alloc)?;
        return Ok((enumeration, name));
    }
    let EnumTree { name, base, labels } = enumeration;
    match base {
        Some(EnumBase::Words(words)) => {
            let (words, last) = last_apart(words)?;
            let base = Some(EnumBase::Words(words));
            Ok((EnumTree { name, base, labels }, last))
        }
        base => {
            let last = tokens.name(alloc)?;
            Ok((EnumTree { name, base, labels }, last))
        }
    }
}

// All words but the last, and the last.
fn last_apart(mut words: Items<Text>) -> Result<(Items<Text>, Text), Fault>
    ensures { Apart words result }
{
    let Some(last) = words.pop() else {
        return Err(Fault::Refused);
    };
    if words.is_empty() {
        Err(Fault::Refused)
    } else {
        Ok((words, last))
    }
}

// `('[' (number | path) ']')*`
fn dims(alloc: Global, tokens: &mut Cursor<'_>) -> Result<Items<Dim>, Fault>
    ensures { Reads (spec.dims tokens.old) result tokens.new }
{
    let mut found = Items::new(alloc);
    for _turn in 0..tokens.left() {
        if !tokens.eat(Symbol::OpenBracket) {
            return Ok(found);
        }
        found.push(dim(alloc, tokens)?)?;
    }
    Ok(found)
}

// `number ']'` or `path ']'`
#[tactic(auto, unfolding(crate::specs::Reading::dim_of, crate::specs::Reading::dim_by))]
fn dim(alloc: Global, tokens: &mut Cursor<'_>) -> Result<Dim, Fault>
    ensures { Reads (spec.dim_of tokens.old) result tokens.new }
{
    let dim = match tokens.peek() {
        Symbol::Number => Dim::Fixed(tokens.number()?),
        _ => Dim::Path(path(alloc, tokens)?),
    };
    tokens.expect(Symbol::CloseBracket)?;
    Ok(dim)
}
