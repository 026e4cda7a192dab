//! Reading the metadata file of a trace.
ghost use Rattle.std.specs.Prelude.{IfOk};
ghost use Rattle.type_scope.specs.Traces.{trace};
ghost use Rattle.meta_packets.specs.Packets.{IsText};
ghost use Rattle.type_table.specs.TraceMetas.{IsSoundMeta};
ghost use Rattle.trace_metadata.specs.Files.{HasTokens, HasDecls, IsTrace, IsRefused, OnRefusal};

use crate::cause::MetaCause;
use meta_packets::{MetaPacketError, join};
use std::alloc::Global;
use std::error::Error;
use std::fmt;
use tsdl_lex::{LexError, Token, tokens};
use tsdl_parser::{Decl, ParseError, parse};
use tsdl_types::{MetaError, resolve};
use type_table::TraceMeta;

/// Why a metadata file declares no trace: the first place where it is refused, or lack of memory.
#[derive(Clone, Copy, Debug, PartialEq, Eq)]
pub enum MetadataError {
    Refused(MetaCause),
    OutOfMemory,
}

impl fmt::Display for MetadataError {
    fn fmt<W: fmt::Write>(&self, f: &mut fmt::Formatter<W>) -> fmt::Result {
        match self {
            MetadataError::Refused(cause) => write!(f, "{cause}"),
            MetadataError::OutOfMemory => write!(f, "out of memory"),
        }
    }
}

impl Error for MetadataError {}

/// What a metadata file declares. Each step is made only of what the one before gave whole.
pub fn read_metadata(alloc: Global, bytes: &[u8]) -> Result<TraceMeta, MetadataError>
    ensures trace { IfOk result (λ meta. IsTrace bytes.now (trace meta)) }
    ensures sound { IfOk result IsSoundMeta }
    ensures refused { OnRefusal (IsRefused bytes.now) result }
{
    let decls = decls_of(alloc, bytes)?;
    match resolve(alloc, &decls) {
        Ok(meta) => {
            meta.is_sound();
            Ok(meta)
        }
        Err(MetaError::Item { item, cause }) => {
            Err(MetadataError::Refused(MetaCause::Item { item, cause }))
        }
        Err(MetaError::OutOfMemory) => Err(MetadataError::OutOfMemory),
    }
}

// The declarations of a metadata file.
fn decls_of(alloc: Global, bytes: &[u8]) -> Result<Vec<Decl>, MetadataError>
    ensures decls { IfOk result (λ decls. HasDecls bytes.now decls.items) }
    ensures refused { OnRefusal (IsRefused bytes.now) result }
{
    let tokens = tokens_of(alloc, bytes)?;
    match parse(alloc, &tokens) {
        Ok(decls) => Ok(decls),
        Err(ParseError::TooDeep { token }) => Err(MetadataError::Refused(MetaCause::Token {
            token,
        })),
        Err(ParseError::Syntax { item }) => Err(MetadataError::Refused(MetaCause::Syntax { item })),
        Err(ParseError::OutOfMemory) => Err(MetadataError::OutOfMemory),
    }
}

// The tokens of a metadata file.
fn tokens_of(alloc: Global, bytes: &[u8]) -> Result<Vec<Token>, MetadataError>
    ensures tokens { IfOk result (λ tokens. HasTokens bytes.now tokens.items) }
    ensures refused { OnRefusal (IsRefused bytes.now) result }
{
    let text = text_of(alloc, bytes)?;
    match tokens(alloc, &text) {
        Ok(tokens) => Ok(tokens),
        Err(LexError::At { at }) => Err(MetadataError::Refused(MetaCause::Byte { at })),
        Err(LexError::OutOfMemory) => Err(MetadataError::OutOfMemory),
    }
}

// The text of a metadata file.
fn text_of(alloc: Global, bytes: &[u8]) -> Result<Vec<u8>, MetadataError>
    ensures text { IfOk result (λ text. IsText bytes.now text.items) }
    ensures refused { OnRefusal (IsRefused bytes.now) result }
{
    match join(alloc, bytes) {
        Ok(text) => Ok(text),
        Err(MetaPacketError::At { offset, cause }) => {
            Err(MetadataError::Refused(MetaCause::Packet { offset, cause }))
        }
        Err(MetaPacketError::OutOfMemory) => Err(MetadataError::OutOfMemory),
    }
}
