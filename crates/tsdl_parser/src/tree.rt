//! Declarations as they are written.
use sqlite_items::Items;
use trace_types::Text;

/// A declaration, and the place of its first token among the tokens, from 0.
#[derive(Debug, Drop)]
pub struct Decl {
    pub first: u64,
    pub item: Item,
}

#[derive(Debug, Drop)]
pub enum Item {
    /// `typealias TYPE := WORDS;`
    Alias {
        ty: TypeTree,
        words: Items<Text>,
    },
    Struct(StructTree),
    Variant(VariantTree),
    Enum(EnumTree),
    /// `trace { .. };` and its like.
    Block {
        kind: BlockKind,
        entries: Items<Entry>,
    },
}

#[derive(Clone, Copy, Debug, PartialEq, Eq)]
pub enum BlockKind {
    Trace,
    Stream,
    Event,
    Clock,
    Env,
    Callsite,
}

/// An entry of a block.
#[derive(Debug, Drop)]
pub enum Entry {
    Assign(Attr),
    /// `PATH := TYPE;`
    Declare { path: Items<Text>, ty: TypeTree },
}

/// `PATH = VALUE;`
#[derive(Debug, Drop)]
pub struct Attr {
    pub path: Items<Text>,
    pub value: AttrValue,
}

#[derive(Debug, Drop)]
pub enum AttrValue {
    /// From -(2^64 - 1) to 2^64 - 1.
    Signed(i128),
    Str(Text),
    Path(Items<Text>),
}

#[cycle(tree)]
#[derive(Debug, Drop)]
pub enum TypeTree {
    Integer(Items<Attr>),
    Float(Items<Attr>),
    Str(Option<Items<Attr>>),
    Struct(StructTree),
    Variant(VariantTree),
    Enum(EnumTree),
    /// The name of an alias, as `unsigned long`.
    Words(Items<Text>),
}

/// It has a name or a body.
#[cycle(tree)]
#[derive(Debug, Drop)]
pub struct StructTree {
    pub name: Option<Text>,
    pub body: Option<StructBody>,
}

#[cycle(tree)]
#[derive(Debug, Drop)]
pub struct StructBody {
    pub fields: Items<FieldTree>,
    /// The number of `align(NUMBER)` after the body.
    pub align: Option<u64>,
}

/// It has a name or a body.
#[cycle(tree)]
#[derive(Debug, Drop)]
pub struct VariantTree {
    pub name: Option<Text>,
    /// The path between `<` and `>`.
    pub tag: Option<Items<Text>>,
    pub body: Option<Items<FieldTree>>,
}

/// It has a name or labels.
#[derive(Debug, Drop)]
pub struct EnumTree {
    pub name: Option<Text>,
    pub base: Option<EnumBase>,
    pub labels: Option<Items<Label>>,
}

/// The type of an enumeration's values.
#[derive(Debug, Drop)]
pub enum EnumBase {
    Integer(Items<Attr>),
    Words(Items<Text>),
}

/// `NAME = LOW ... HIGH`; without a `HIGH` the label is for one value.
#[derive(Debug, Drop)]
pub struct Label {
    pub name: Text,
    pub low: Option<i128>,
    pub high: Option<i128>,
}

#[cycle(tree)]
#[derive(Debug, Drop)]
pub struct FieldTree {
    pub ty: TypeTree,
    pub name: Text,
    /// The lengths after the name, from left to right: `x[a][b]` is a list of `a` lists of `b`.
    pub dims: Items<Dim>,
}

/// The length of a list.
#[derive(Debug, Drop)]
pub enum Dim {
    Fixed(u64),
    Path(Items<Text>),
}
