//! What is known of each type beside its parts.
ghost use Rattle.std.specs.Prelude.{◌≡◌, ◌<◌, ◌≤◌, suc, IfSome, IfNone, length, true, false};
ghost use Rattle.type_table.specs.TypeSizes.{are_fit, leaf, one_around, type_size_at, meta_type_size, sum_of, summed};
ghost use Rattle.type_table.specs.Table.{FieldsIn, RefersIn};

use crate::meta::{FieldMeta, TypeMeta};
use trace_types::MAX_TYPE_DEPTH;

/// How many types a type may consist of, itself among them, each as often as it is named.
pub const MAX_NODES: u32 = 65_536;

/// The alignment of a type in bits, how many types deep it goes and of how many it consists, whether a value may take
/// no bit, and whether a variant or a sequence stands in it, whose tag or length a field path leads to.
#[derive(Clone, Copy, Debug)]
pub struct TypeSize {
    pub align: u32,
    pub depth: u32,
    pub nodes: u32,
    pub may_be_empty: bool,
    pub has_paths: bool,
}

/// Fields together.
#[derive(Clone, Copy, Debug)]
pub struct Sum {
    pub align: u32,
    pub depth: u32,
    pub nodes: u64,
    pub all_empty: bool,
    pub any_empty: bool,
    pub any_paths: bool,
}

/// What is known of a type by what is known of the types that it names. `None` comes where it goes too deep or
/// consists of too many.
pub fn meta_type_size(type_sizes: &[TypeSize], meta: &TypeMeta) -> Option<TypeSize>
    requires { RefersIn (length type_sizes.now) meta.now }
    ensures found { IfSome result (λ f. (f ≡ meta_type_size type_sizes.now meta.now) × (are_fit f ≡ true)) }
    ensures none { IfNone result (are_fit (meta_type_size type_sizes.now meta.now) ≡ false) }
{
    match meta {
        TypeMeta::Integer(integer) => Some(leaf(integer.align, integer.size == 0)),
        TypeMeta::Enum { base, .. } => {
            let base = type_size_at(type_sizes, *base);
            Some(leaf(base.align, base.may_be_empty))
        }
        TypeMeta::Str => Some(leaf(8, false)),
        TypeMeta::Struct { align, fields } => {
            let sum = sum_of(type_sizes, fields.as_slice())?;
            around(Inside {
                align: *align,
                depth: sum.depth,
                nodes: sum.nodes,
                may_be_empty: sum.all_empty,
                has_paths: sum.any_paths,
            })
        }
        TypeMeta::Variant { fields, .. } => {
            let sum = sum_of(type_sizes, fields.as_slice())?;
            around(Inside {
                align: 1,
                depth: sum.depth,
                nodes: sum.nodes,
                may_be_empty: fields.as_slice().is_empty() || sum.any_empty,
                has_paths: true,
            })
        }
        TypeMeta::Array { length, item } => {
            let item = type_size_at(type_sizes, *item);
            around(Inside {
                align: item.align,
                depth: item.depth,
                nodes: u64::from(item.nodes),
                may_be_empty: *length == 0 || item.may_be_empty,
                has_paths: item.has_paths,
            })
        }
        TypeMeta::Sequence { item, .. } => {
            let item = type_size_at(type_sizes, *item);
            around(Inside {
                align: item.align,
                depth: item.depth,
                nodes: u64::from(item.nodes),
                may_be_empty: true,
                has_paths: true,
            })
        }
    }
}

/// What is known of the type at an index.
pub fn type_size_at(type_sizes: &[TypeSize], index: u32) -> TypeSize
    requires { index < length type_sizes.now }
    ensures { result ≡ type_size_at type_sizes.now index }
{
    type_sizes[index as usize]
}

fn leaf(align: u32, may_be_empty: bool) -> TypeSize
    ensures { result ≡ leaf align may_be_empty }
{
    TypeSize {
        align,
        depth: 1,
        nodes: 1,
        may_be_empty,
        has_paths: false,
    }
}

/// The fields of a structure or a variant together. `None` comes where they consist of too many types.
pub fn sum_of(type_sizes: &[TypeSize], fields: &[FieldMeta]) -> Option<Sum>
    requires { FieldsIn (length type_sizes.now) fields.now }
    ensures found { IfSome result (λ s. (s ≡ sum_of type_sizes.now fields.now) × (s.nodes ≤ 65536)) }
    ensures none { IfNone result (65536 < (sum_of type_sizes.now fields.now).nodes) }
{
    let mut sum = Sum {
        align: 1,
        depth: 0,
        nodes: 0,
        all_empty: true,
        any_empty: false,
        any_paths: false,
    };
    for field in fields {
        sum = summed(sum, type_size_at(type_sizes, field.ty));
        if sum.nodes > u64::from(MAX_NODES) {
            return None;
        }
    }
    Some(sum)
}

fn summed(sum: Sum, type_size: TypeSize) -> Sum
    requires { sum.nodes ≤ 65536 }
    ensures { result ≡ summed sum type_size }
{
    Sum {
        align: sum.align.max(type_size.align),
        depth: sum.depth.max(type_size.depth),
        nodes: sum.nodes + u64::from(type_size.nodes),
        all_empty: sum.all_empty && type_size.may_be_empty,
        any_empty: sum.any_empty || type_size.may_be_empty,
        any_paths: sum.any_paths || type_size.has_paths,
    }
}

/// What stands in a type: how deep it goes and of how many types it consists, and the rest of what is known of the type.
#[derive(Clone, Copy)]
pub struct Inside {
    pub align: u32,
    pub depth: u32,
    pub nodes: u64,
    pub may_be_empty: bool,
    pub has_paths: bool,
}

// A type of one depth and one type more than what stands in it.
fn around(inside: Inside) -> Option<TypeSize>
    ensures found { IfSome result (λ f. (f ≡ one_around inside) × (are_fit f ≡ true)) }
    ensures none { IfNone result (are_fit (one_around inside) ≡ false) }
{
    if inside.depth >= MAX_TYPE_DEPTH || inside.nodes >= u64::from(MAX_NODES) {
        return None;
    }
    Some(TypeSize {
        align: inside.align,
        depth: inside.depth + 1,
        nodes: inside.nodes as u32 + 1,
        may_be_empty: inside.may_be_empty,
        has_paths: inside.has_paths,
    })
}
