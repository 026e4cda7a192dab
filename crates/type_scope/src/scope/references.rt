//! Where the field paths of tags and lengths lead.
ghost use Rattle.std.specs.Prelude.{◌≡◌, ◌<◌, None, Some, length, map, option_map, reverse, IfNone, IfOk, IfSome};
ghost use Rattle.type_scope.specs.References.{all_lead, from_inside, from_outside, in_frame, is_inner, resolve_here, leads, nearest, rank, verdict};
ghost use Rattle.type_scope.specs.Following.{follow, member, suits, suits_if_any};
ghost use Rattle.type_table.specs.Table.{AreBelow, FieldNamesIn, FieldsIn, name_at, tree, trees};
ghost use Rattle.type_scope.specs.View.{FrameIn, FramesIn, ScopesIn, frame_at, read_at, scopes_at, DeferredIn, AllDeferredIn, deferred_at};
ghost use Rattle.type_table.specs.TraceMetas.{IfHere};

use crate::field_path::{PathUse, Resolution};
use crate::scope::{DeferredPath, Frame};
use type_table::{FieldMeta, PerScope, ScopeName, Table, TypeMeta, is_same_name};

// Whether a tag or a length may be of this type.
fn suits(table: &Table, path_use: PathUse, index: u32) -> bool
    requires { index < length table.now.types }
    ensures { result ≡ suits path_use (tree table.now index) }
{
    match (path_use, table.get(index)) {
        (PathUse::Tag, TypeMeta::Enum { .. }) => true,
        (PathUse::Length, TypeMeta::Integer(integer)) => !integer.signed,
        _ => false,
    }
}

// The type of the nearest field of a name.
fn nearest(table: &Table, name: u32, fields: &[FieldMeta]) -> Option<u32>
    requires name { name < length table.now.names }
    requires types { FieldsIn (length table.now.types) fields.now }
    requires names { FieldNamesIn (length table.now.names) fields.now }
    ensures found { option_map (tree table.now) result ≡ nearest (name_at table.now.names name) (read_at table.now fields.now) }
    ensures there { IfSome result (λ index. index < length table.now.types) }
{
    let wanted = table.name(name);
    for behind in 0..fields.len() {
        let field = fields[fields.len() - 1 - behind];
        if is_same_name(wanted, table.name(field.name)) {
            return Some(field.ty);
        }
    }
    None
}

// The field of this name of a structure.
#[tactic(auto, using(crate::proofs::Nearest::nearest_fields))]
fn member(table: &Table, name: u32, index: Option<u32>) -> Option<u32>
    requires name { name < length table.now.names }
    requires index { IfSome index (λ p. p < length table.now.types) }
    ensures found { option_map (tree table.now) result ≡ member (name_at table.now.names name) (option_map (tree table.now) index) }
    ensures there { IfSome result (λ p. p < length table.now.types) }
{
    let TypeMeta::Struct { fields, .. } = table.get(index?) else {
        return None;
    };
    nearest(table, name, fields.as_slice())
}

// The type after further names.
fn follow(table: &Table, index: Option<u32>, names: &[u32]) -> Option<u32>
    requires names { AreBelow (length table.now.names) names.now }
    requires index { IfSome index (λ p. p < length table.now.types) }
    ensures found { option_map (tree table.now) result ≡ follow (option_map (tree table.now) index) (map (name_at table.now.names) names.now) }
    ensures there { IfSome result (λ p. p < length table.now.types) }
{
    let mut at = index;
    for name in names {
        at = member(table, *name, at);
    }
    at
}

// The type of a field of the innermost structure that has one of this name, or after it.
fn from_inside(table: &Table, frames: &[Frame], name: u32, names: &[u32]) -> Option<u32>
    requires frames { FramesIn table.now frames.now }
    requires name { name < length table.now.names }
    requires names { AreBelow (length table.now.names) names.now }
    ensures found { option_map (tree table.now) result ≡ from_inside (map (frame_at table.now) (reverse frames.now)) (name_at table.now.names name) (map (name_at table.now.names) names.now) }
    ensures there { IfSome result (λ p. p < length table.now.types) }
{
    let [outer @ .., inner] = frames else {
        return None;
    };
    match in_frame(table, inner, name) {
        Some(index) => follow(table, Some(index), names),
        None => from_inside(table, outer, name, names),
    }
}

// The field of this name of a structure that is being read.
fn in_frame(table: &Table, frame: &Frame, name: u32) -> Option<u32>
    requires frame { FrameIn table.now frame.now }
    requires name { name < length table.now.names }
    ensures found { option_map (tree table.now) result ≡ in_frame (name_at table.now.names name) (frame_at table.now frame.now) }
    ensures there { IfSome result (λ p. p < length table.now.types) }
{
    if frame.is_struct {
        nearest(table, name, frame.fields.as_slice())
    } else {
        None
    }
}

// The type of a field path from the outermost structure on, through those that are being read.
fn from_outside(table: &Table, frames: &[Frame], names: &[u32]) -> Option<u32>
    requires frames { FramesIn table.now frames.now }
    requires names { AreBelow (length table.now.names) names.now }
    ensures found { option_map (tree table.now) result ≡ from_outside (map (frame_at table.now) frames.now) (map (name_at table.now.names) names.now) }
    ensures there { IfSome result (λ p. p < length table.now.types) }
{
    let [frame, inner @ ..] = frames else {
        return None;
    };
    let [name, rest @ ..] = names else {
        return None;
    };
    if !frame.is_struct {
        None
    } else if is_inner(table, *name, frame.inner) {
        from_outside(table, inner, rest)
    } else {
        let index = nearest(table, *name, frame.fields.as_slice());
        follow(table, index, rest)
    }
}

// Whether the structure of this name is being read.
fn is_inner(table: &Table, name: u32, inner: Option<u32>) -> bool
    requires name { name < length table.now.names }
    requires inner { IfHere (λ n. n < length table.now.names) inner }
    ensures { result ≡ is_inner (name_at table.now.names name) (option_map (name_at table.now.names) inner) }
{
    match inner {
        Some(inner) => is_same_name(table.name(name), table.name(inner)),
        None => false,
    }
}

// Whether a field path leads to a type that it may lead to.
fn verdict(table: &Table, path_use: PathUse, index: Option<u32>) -> Resolution
    requires { IfSome index (λ p. p < length table.now.types) }
    ensures { result ≡ verdict (suits_if_any path_use (option_map (tree table.now) index)) }
{
    match index {
        Some(index) if suits(table, path_use, index) => Resolution::Resolved,
        _ => Resolution::Invalid,
    }
}

/// A field path that begins in the innermost structure.
pub fn resolve_here(table: &Table, frames: &[Frame], path_use: PathUse, names: &[u32]) -> Resolution
    requires frames { FramesIn table.now frames.now }
    requires names { AreBelow (length table.now.names) names.now }
    ensures { result ≡ resolve_here (map (frame_at table.now) (reverse frames.now)) path_use (map (name_at table.now.names) names.now) }
{
    match names {
        [name, rest @ ..] => verdict(table, path_use, from_inside(table, frames, *name, rest)),
        [] => Resolution::Invalid,
    }
}

/// A field path into the scope that is being read, which begins at its outermost structure.
#[tactic(auto, using(crate::proofs::Inside::outermost_first))]
pub fn resolve_reading(
    table: &Table,
    frames: &[Frame],
    path_use: PathUse,
    names: &[u32],
) -> Resolution
    requires frames { FramesIn table.now frames.now }
    requires names { AreBelow (length table.now.names) names.now }
    ensures { result ≡ verdict (suits_if_any path_use (from_outside (reverse (map (frame_at table.now) (reverse frames.now))) (map (name_at table.now.names) names.now))) }
{
    verdict(table, path_use, from_outside(table, frames, names))
}

/// Whether a field path from a type that is there leads to what it may lead to.
pub fn leads_from(table: &Table, path_use: PathUse, index: u32, names: &[u32]) -> bool
    requires index { index < length table.now.types }
    requires names { AreBelow (length table.now.names) names.now }
    ensures { result ≡ suits_if_any path_use (follow (Some (tree table.now index)) (map (name_at table.now.names) names.now)) }
{
    match follow(table, Some(index), names) {
        Some(index) => suits(table, path_use, index),
        None => false,
    }
}

/// The index of a scope in the order in which they are read.
pub fn rank(scope: ScopeName) -> u8
    ensures { result ≡ rank scope }
{
    match scope {
        ScopeName::PacketHeader => 0,
        ScopeName::PacketContext => 1,
        ScopeName::EventHeader => 2,
        ScopeName::StreamContext => 3,
        ScopeName::EventContext => 4,
        ScopeName::EventFields => 5,
    }
}

/// Whether each field path leads to what it may lead to, where these scopes can be read.
pub fn all_lead(table: &Table, scopes: PerScope<Option<u32>>, deferred: &[DeferredPath]) -> bool
    requires scopes { ScopesIn table.now scopes }
    requires deferred { AllDeferredIn table.now deferred.now }
    ensures { result ≡ all_lead (scopes_at table.now scopes) (map (deferred_at table.now) deferred.now) }
{
    for field_path in deferred {
        if !leads(table, scopes, field_path) {
            return false;
        }
    }
    true
}

fn leads(table: &Table, scopes: PerScope<Option<u32>>, field_path: &DeferredPath) -> bool
    requires scopes { ScopesIn table.now scopes }
    requires field_path { DeferredIn table.now field_path.now }
    ensures { result ≡ leads (scopes_at table.now scopes) (deferred_at table.now field_path.now) }
{
    match follow(
        table,
        *scopes.of(field_path.scope),
        field_path.words.as_slice(),
    ) {
        Some(index) => suits(table, field_path.path_use, index),
        None => false,
    }
}
