//! Names of fields and labels.
ghost use Rattle.std.specs.Prelude.{◌≡◌, IfOk};
ghost use Rattle.type_table.specs.Names.{bare, other_spelling, same_name, spaced};

use std::alloc::Global;
use trace_types::{OutOfMemory, Text};

/// What a name is the name of. Each kind has names of its own.
#[derive(Clone, Copy, Debug, PartialEq, Eq)]
pub enum NameKind {
    Alias,
    Struct,
    Variant,
    Enum,
}

/// A name without one leading underscore, which tracers put before names that are words of the language.
pub fn bare(name: &[u8]) -> &[u8]
    ensures { result.now ≡ bare name.now }
{
    match name {
        [b'_', rest @ ..] => rest,
        _ => name,
    }
}

/// Names count as one where they differ in a leading underscore alone.
pub fn is_same_name(a: &[u8], b: &[u8]) -> bool
    ensures { result ≡ same_name a.now b.now }
{
    bare(a) == bare(b)
}

/// The one other name that counts as this one, if there is one.
pub fn other_spelling(alloc: Global, name: &[u8]) -> Result<Option<Text>, OutOfMemory>
    ensures { IfOk result (λ other. other ≡ other_spelling name.now) }
{
    match name {
        [b'_', b'_', ..] => Ok(None),
        [b'_', rest @ ..] => Ok(Some(Text::from_bytes(alloc, rest)?)),
        _ => {
            let mut other = Vec::new(alloc);
            other.push(b'_')?;
            other.extend_from_slice(name)?;
            Ok(Some(Text::from_vec(other)))
        }
    }
}

/// Words with a space between them, as an alias is known by.
pub fn spaced(alloc: Global, words: &[Text]) -> Result<Text, OutOfMemory>
    ensures { IfOk result (λ name. name ≡ spaced words.now) }
{
    let mut name = Vec::new(alloc);
    if let [first, rest @ ..] = words {
        name.extend_from_slice(first.as_bytes())?;
        for word in rest {
            name.push(b' ')?;
            name.extend_from_slice(word.as_bytes())?;
        }
    }
    Text::from_bytes(alloc, name.as_slice())
}
