//! The universally unique id of a trace.
ghost use Rattle.std.specs.Prelude.{◌≡◌};
ghost use Rattle.tsdl_types.specs.Uuids.{uuid_said};

use tsdl_parser::AttrValue;
use uuid::Uuid;

/// The sixteen bytes of a text that is one of the ways to write them.
#[tactic(auto, unfolding(crate::specs::Uuids::uuid_said))]
pub fn uuid_said(value: &AttrValue) -> Option<[u8; 16]>
    ensures { result ≡ uuid_said value.now }
{
    let AttrValue::Str(text) = value else {
        return None;
    };
    match Uuid::try_parse_ascii(text.as_bytes()) {
        Ok(uuid) => Some(uuid.into_bytes()),
        Err(_) => None,
    }
}
