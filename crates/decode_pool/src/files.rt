//! Stream files.
use trace_types::Text;

/// A stream file: its name in its folder, and its bytes.
#[derive(Debug, Drop)]
pub struct FileBytes {
    pub name: Text,
    pub bytes: Vec<u8>,
}
