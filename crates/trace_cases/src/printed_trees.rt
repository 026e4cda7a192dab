//! Declarations as a text that shows what was read as what: the words of an alias stand in
//! parentheses, and all else is in one fixed spelling without spaces.
use crate::printed_tokens::put_number;
use trace_types::{OutOfMemory, Text};
use tsdl_parser::{
    Attr, AttrValue, BlockKind, Decl, Dim, Entry, EnumBase, EnumTree, FieldTree, Item, Label,
    StructBody, StructTree, TypeTree, VariantTree,
};

/// The declarations, each after the place of its first token.
pub fn put_decls(decls: &[Decl], out: &mut Vec<u8>) -> Result<(), OutOfMemory> {
    for decl in decls {
        put_number(i128::from(decl.first), out)?;
        put(b":", out)?;
        put_item(&decl.item, out)?;
        put(b";", out)?;
    }
    Ok(())
}

fn put(text: &[u8], out: &mut Vec<u8>) -> Result<(), OutOfMemory> {
    out.extend_from_slice(text)?;
    Ok(())
}

fn put_item(item: &Item, out: &mut Vec<u8>) -> Result<(), OutOfMemory> {
    match item {
        Item::Alias { ty, words } => {
            put(b"typealias ", out)?;
            put_type(ty, out)?;
            put(b":=", out)?;
            put_words(words.as_slice(), out)
        }
        Item::Struct(tree) => put_struct(tree, out),
        Item::Variant(tree) => put_variant(tree, out),
        Item::Enum(tree) => put_enum(tree, out),
        Item::Block { kind, entries } => {
            put(keyword(*kind), out)?;
            put(b"{", out)?;
            for entry in entries.as_slice() {
                put_entry(entry, out)?;
            }
            put(b"}", out)
        }
    }
}

fn keyword(kind: BlockKind) -> &'static [u8] {
    match kind {
        BlockKind::Trace => b"trace",
        BlockKind::Stream => b"stream",
        BlockKind::Event => b"event",
        BlockKind::Clock => b"clock",
        BlockKind::Env => b"env",
        BlockKind::Callsite => b"callsite",
    }
}

fn put_entry(entry: &Entry, out: &mut Vec<u8>) -> Result<(), OutOfMemory> {
    match entry {
        Entry::Assign(attr) => put_attr(attr, out),
        Entry::Declare { path, ty } => {
            put_path(path.as_slice(), out)?;
            put(b":=", out)?;
            put_type(ty, out)?;
            put(b";", out)
        }
    }
}

// Texts with a byte between them.
fn put_joined(texts: &[Text], between: u8, out: &mut Vec<u8>) -> Result<(), OutOfMemory> {
    for (place, text) in texts.iter().enumerate() {
        if place > 0 {
            out.push(between)?;
        }
        put(text.as_bytes(), out)?;
    }
    Ok(())
}

fn put_path(path: &[Text], out: &mut Vec<u8>) -> Result<(), OutOfMemory> {
    put_joined(path, b'.', out)
}

fn put_words(words: &[Text], out: &mut Vec<u8>) -> Result<(), OutOfMemory> {
    put(b"(", out)?;
    put_joined(words, b' ', out)?;
    put(b")", out)
}

fn put_attrs(attrs: &[Attr], out: &mut Vec<u8>) -> Result<(), OutOfMemory> {
    put(b"{", out)?;
    for attr in attrs {
        put_attr(attr, out)?;
    }
    put(b"}", out)
}

fn put_attr(attr: &Attr, out: &mut Vec<u8>) -> Result<(), OutOfMemory> {
    put_path(attr.path.as_slice(), out)?;
    put(b"=", out)?;
    match &attr.value {
        AttrValue::Signed(number) => put_number(*number, out)?,
        AttrValue::Str(text) => {
            put(b"\"", out)?;
            put(text.as_bytes(), out)?;
            put(b"\"", out)?;
        }
        AttrValue::Path(path) => put_path(path.as_slice(), out)?,
    }
    put(b";", out)
}

fn put_name(name: &Option<Text>, out: &mut Vec<u8>) -> Result<(), OutOfMemory> {
    if let Some(name) = name {
        put(b" ", out)?;
        put(name.as_bytes(), out)?;
    }
    Ok(())
}

fn put_enum(tree: &EnumTree, out: &mut Vec<u8>) -> Result<(), OutOfMemory> {
    put(b"enum", out)?;
    put_name(&tree.name, out)?;
    match &tree.base {
        Some(EnumBase::Integer(attrs)) => {
            put(b":integer", out)?;
            put_attrs(attrs.as_slice(), out)?;
        }
        Some(EnumBase::Words(words)) => {
            put(b":", out)?;
            put_words(words.as_slice(), out)?;
        }
        None => {}
    }
    if let Some(labels) = &tree.labels {
        put(b"{", out)?;
        for label in labels.as_slice() {
            put_label(label, out)?;
        }
        put(b"}", out)?;
    }
    Ok(())
}

fn put_label(label: &Label, out: &mut Vec<u8>) -> Result<(), OutOfMemory> {
    put(label.name.as_bytes(), out)?;
    if let Some(low) = label.low {
        put(b"=", out)?;
        put_number(low, out)?;
    }
    if let Some(high) = label.high {
        put(b"...", out)?;
        put_number(high, out)?;
    }
    put(b",", out)
}

#[cycle(types)]
fn put_type(ty: &TypeTree, out: &mut Vec<u8>) -> Result<(), OutOfMemory> {
    match ty {
        TypeTree::Integer(attrs) => {
            put(b"integer", out)?;
            put_attrs(attrs.as_slice(), out)
        }
        TypeTree::Float(attrs) => {
            put(b"floating_point", out)?;
            put_attrs(attrs.as_slice(), out)
        }
        TypeTree::Str(None) => put(b"string", out),
        TypeTree::Str(Some(attrs)) => {
            put(b"string", out)?;
            put_attrs(attrs.as_slice(), out)
        }
        TypeTree::Struct(tree) => put_struct(tree, out),
        TypeTree::Variant(tree) => put_variant(tree, out),
        TypeTree::Enum(tree) => put_enum(tree, out),
        TypeTree::Words(words) => put_words(words.as_slice(), out),
    }
}

#[cycle(types)]
fn put_struct(tree: &StructTree, out: &mut Vec<u8>) -> Result<(), OutOfMemory> {
    put(b"struct", out)?;
    put_name(&tree.name, out)?;
    match &tree.body {
        Some(StructBody { fields, align }) => {
            put_fields(fields.as_slice(), out)?;
            if let Some(align) = align {
                put(b"align", out)?;
                put_number(i128::from(*align), out)?;
            }
            Ok(())
        }
        None => Ok(()),
    }
}

#[cycle(types)]
fn put_variant(tree: &VariantTree, out: &mut Vec<u8>) -> Result<(), OutOfMemory> {
    put(b"variant", out)?;
    put_name(&tree.name, out)?;
    if let Some(tag) = &tree.tag {
        put(b"<", out)?;
        put_path(tag.as_slice(), out)?;
        put(b">", out)?;
    }
    match &tree.body {
        Some(fields) => put_fields(fields.as_slice(), out),
        None => Ok(()),
    }
}

#[cycle(types)]
fn put_fields(fields: &[FieldTree], out: &mut Vec<u8>) -> Result<(), OutOfMemory> {
    put(b"{", out)?;
    for field in fields {
        put_type(&field.ty, out)?;
        put(b" ", out)?;
        put(field.name.as_bytes(), out)?;
        put_dims(field.dims.as_slice(), out)?;
        put(b";", out)?;
    }
    put(b"}", out)
}

fn put_dims(dims: &[Dim], out: &mut Vec<u8>) -> Result<(), OutOfMemory> {
    for dim in dims {
        put(b"[", out)?;
        match dim {
            Dim::Fixed(length) => put_number(i128::from(*length), out)?,
            Dim::Path(path) => put_path(path.as_slice(), out)?,
        }
        put(b"]", out)?;
    }
    Ok(())
}
