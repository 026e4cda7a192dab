//! The scopes that the words of a reference may begin with.
ghost use Rattle.std.specs.Prelude.{◌≡◌, IfSome, IfNone, Some, None};
ghost use Rattle.type_table.specs.Names.{behind_two, behind_three, scope_of};

use crate::meta::ScopeName;
use trace_types::Text;

/// The scope that words begin with, and the words after it.
pub fn split_scope(words: &[Text]) -> Option<(ScopeName, &[Text])>
    ensures found { IfSome result (λ r. scope_of words.now ≡ Some (r.0, r.1.now)) }
    ensures none { IfNone result (scope_of words.now ≡ None) }
{
    if let Some(rest) = behind_three(words, b"trace", b"packet", b"header") {
        return Some((ScopeName::PacketHeader, rest));
    }
    if let Some(rest) = behind_three(words, b"stream", b"packet", b"context") {
        return Some((ScopeName::PacketContext, rest));
    }
    if let Some(rest) = behind_three(words, b"stream", b"event", b"header") {
        return Some((ScopeName::EventHeader, rest));
    }
    if let Some(rest) = behind_three(words, b"stream", b"event", b"context") {
        return Some((ScopeName::StreamContext, rest));
    }
    if let Some(rest) = behind_two(words, b"event", b"context") {
        return Some((ScopeName::EventContext, rest));
    }
    let rest = behind_two(words, b"event", b"fields")?;
    Some((ScopeName::EventFields, rest))
}

// The words after these two.
fn behind_two<'a>(words: &'a [Text], a: &[u8], b: &[u8]) -> Option<&'a [Text]>
    ensures found { IfSome result (λ rest. behind_two a.now b.now words.now ≡ Some rest.now) }
    ensures none { IfNone result (behind_two a.now b.now words.now ≡ None) }
{
    match words {
        [x, y, rest @ ..] if x.as_bytes() == a && y.as_bytes() == b => Some(rest),
        _ => None,
    }
}

// The words after these three.
fn behind_three<'a>(words: &'a [Text], a: &[u8], b: &[u8], c: &[u8]) -> Option<&'a [Text]>
    ensures found { IfSome result (λ rest. behind_three a.now b.now c.now words.now ≡ Some rest.now) }
    ensures none { IfNone result (behind_three a.now b.now c.now words.now ≡ None) }
{
    match words {
        [x, y, z, rest @ ..] if x.as_bytes() == a && y.as_bytes() == b && z.as_bytes() == c => {
            Some(rest)
        }
        _ => None,
    }
}
