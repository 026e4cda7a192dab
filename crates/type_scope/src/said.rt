//! What attributes of one word say.
ghost use Rattle.std.specs.Prelude.{◌≡◌, ◌∷◌, [], None, Some, IfNone, IfSome};
ghost use Rattle.type_scope.specs.Said.{is_named, is_signed, is_word, same_words, sign_said, value_named};

use trace_types::Text;
use tsdl_parser::{Attr, AttrValue};

/// Whether the integer of these attributes has a sign.
pub fn is_signed(attrs: &[Attr]) -> bool
    ensures { result ≡ is_signed attrs.now }
{
    match value_named(attrs, b"signed") {
        Some(value) => sign_said(value).unwrap_or(false),
        None => false,
    }
}

/// Whether integers have a sign: 0, 1, or a word of either case.
pub fn sign_said(value: &AttrValue) -> Option<bool>
    ensures { result ≡ sign_said value.now }
{
    match value {
        AttrValue::Signed(0) => Some(false),
        AttrValue::Signed(1) => Some(true),
        _ if is_word(value, b"true") || is_word(value, b"TRUE") => Some(true),
        _ if is_word(value, b"false") || is_word(value, b"FALSE") => Some(false),
        _ => None,
    }
}

/// The value of the attribute of this one word.
pub fn value_named<'a>(attrs: &'a [Attr], name: &[u8]) -> Option<&'a AttrValue>
    ensures found { IfSome result (λ value. value_named name.now attrs.now ≡ Some value.now) }
    ensures none { IfNone result (value_named name.now attrs.now ≡ None) }
{
    for attr in attrs {
        if is_named(attr, name) {
            return Some(&attr.value);
        }
    }
    None
}

/// Whether an attribute is of this one word.
pub fn is_named(attr: &Attr, name: &[u8]) -> bool
    ensures { result ≡ is_named name.now attr.now }
{
    is_only(attr.path.as_slice(), name)
}

/// Whether the value is this one word.
pub fn is_word(value: &AttrValue, word: &[u8]) -> bool
    ensures { result ≡ is_word word.now value.now }
{
    match value {
        AttrValue::Path(words) => is_only(words.as_slice(), word),
        _ => false,
    }
}

/// Whether the path is this one word.
pub fn is_only(words: &[Text], word: &[u8]) -> bool
    ensures { result ≡ same_words words.now (word.now ∷ []) }
{
    match words {
        [only] => only.as_bytes() == word,
        _ => false,
    }
}
