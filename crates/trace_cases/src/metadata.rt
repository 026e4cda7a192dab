//! What the crates of metadata answer of a text, whose bytes are those of all files, joined.
use crate::printed_tokens::put_tokens;
use crate::printed_trees::put_decls;
use anyhow::bail;
use meta_packets::{MetaPacketError, join};
use std::alloc::Global;
use std::io::{self, Write};
use trace_types::OutOfMemory;
use tsdl_lex::{LexError, Token, tokens};
use tsdl_parser::{Decl, ParseError, parse};
use tsdl_types::{MetaError, resolve};
use type_table::TraceMeta;

/// Writes what a mode tells. At `find` the last file isn't part of the text: it holds the ids that are looked for.
pub fn print(
    alloc: Global,
    mode: &str,
    files: &[Vec<u8>],
    out: &mut Vec<u8>,
) -> anyhow::Result<()> {
    if mode == "find" {
        return put_events(alloc, files, out);
    }
    let text = joined(alloc, files)?;
    match mode {
        "text" => put_text(alloc, &text, out),
        "tokens" | "places" => put_lexed(alloc, mode, &text, out),
        "declarations" => put_parsed(alloc, &text, out),
        _ => put_declared(alloc, mode, &text, out),
    }
}

fn joined(alloc: Global, files: &[Vec<u8>]) -> Result<Vec<u8>, OutOfMemory> {
    let mut text = Vec::new(alloc);
    for file in files {
        text.extend_from_slice(file)?;
    }
    Ok(text)
}

// The text that packets carry, or the offset and the cause of a packet that is refused.
fn put_text(alloc: Global, bytes: &[u8], out: &mut Vec<u8>) -> anyhow::Result<()> {
    match join(alloc, bytes) {
        Ok(text) => out.extend_from_slice(&text)?,
        Err(MetaPacketError::At { offset, cause }) => writeln!(out, "refused {offset} {cause:?}")?,
        Err(error) => return Err(error.into()),
    }
    Ok(())
}

// The tokens or their places, or the byte where none begins.
fn put_lexed(alloc: Global, mode: &str, text: &[u8], out: &mut Vec<u8>) -> anyhow::Result<()> {
    match tokens(alloc, text) {
        Ok(found) => put_found(mode, &found, out)?,
        Err(LexError::At { at }) => writeln!(out, "refused {at}")?,
        Err(error) => return Err(error.into()),
    }
    Ok(())
}

fn put_found(mode: &str, found: &[Token], out: &mut Vec<u8>) -> anyhow::Result<()> {
    if mode == "places" {
        put_places(found, out)?;
    } else {
        put_tokens(found, out)?;
        out.push(b'\n')?;
    }
    Ok(())
}

// The byte at which each token begins, and the one before which it ends.
fn put_places(found: &[Token], out: &mut Vec<u8>) -> io::Result<()> {
    for token in found {
        writeln!(out, "{} {}", token.start, token.end)?;
    }
    Ok(())
}

fn put_parsed(alloc: Global, text: &[u8], out: &mut Vec<u8>) -> anyhow::Result<()> {
    let found = tokens(alloc, text)?;
    put_parsed_of(alloc, &found, out)
}

// The declarations, or the token or the item that is refused.
fn put_parsed_of(alloc: Global, found: &[Token], out: &mut Vec<u8>) -> anyhow::Result<()> {
    match parse(alloc, found) {
        Ok(decls) => put_decls(&decls, out)?,
        Err(ParseError::TooDeep { token }) => write!(out, "refused token {token}")?,
        Err(ParseError::Syntax { item }) => write!(out, "refused item {item}")?,
        Err(error) => return Err(error.into()),
    }
    out.push(b'\n')?;
    Ok(())
}

fn put_declared(alloc: Global, mode: &str, text: &[u8], out: &mut Vec<u8>) -> anyhow::Result<()> {
    let decls = decls_of(alloc, text)?;
    match mode {
        "types" => put_judged(alloc, &decls, out),
        _ => put_counts(&resolve(alloc, &decls)?, out),
    }
}

fn decls_of(alloc: Global, text: &[u8]) -> anyhow::Result<Vec<Decl>> {
    let found = tokens(alloc, text)?;
    Ok(parse(alloc, &found)?)
}

// Whether the items are accepted, or the number of the first that is refused, and the cause.
fn put_judged(alloc: Global, decls: &[Decl], out: &mut Vec<u8>) -> anyhow::Result<()> {
    match judged(alloc, decls) {
        Ok(()) => writeln!(out, "accepted")?,
        Err(MetaError::Item { item, cause }) => writeln!(out, "refused {item} {cause:?}")?,
        Err(error) => return Err(error.into()),
    }
    Ok(())
}

// Whether the items declare a trace, which isn't kept: a proof over what may fail beside a whole trace is dear.
fn judged(alloc: Global, decls: &[Decl]) -> Result<(), MetaError> {
    resolve(alloc, decls)?;
    Ok(())
}

// How many streams, events, clocks and types there are.
fn put_counts(meta: &TraceMeta, out: &mut Vec<u8>) -> anyhow::Result<()> {
    writeln!(out, "streams {}", meta.stream_count())?;
    writeln!(out, "events {}", meta.event_count())?;
    writeln!(out, "clocks {}", meta.clock_count())?;
    writeln!(out, "types {}", meta.table().len())?;
    Ok(())
}

// The events of a text that the last file's ids name.
fn put_events(alloc: Global, files: &[Vec<u8>], out: &mut Vec<u8>) -> anyhow::Result<()> {
    let Some((ids, files)) = files.split_last() else {
        bail!("no file of ids");
    };
    let text = joined(alloc, files)?;
    put_events_of(alloc, &text, std::str::from_utf8(ids)?, out)
}

fn put_events_of(alloc: Global, text: &[u8], ids: &str, out: &mut Vec<u8>) -> anyhow::Result<()> {
    let decls = decls_of(alloc, text)?;
    put_each_event(&resolve(alloc, &decls)?, ids, out)
}

// A line for each line of ids, a stream's and an event's.
fn put_each_event(meta: &TraceMeta, ids: &str, out: &mut Vec<u8>) -> anyhow::Result<()> {
    for line in ids.lines() {
        let Some((stream, id)) = line.split_once(' ') else {
            bail!("no two ids");
        };
        put_event(meta, number(stream)?, number(id)?, out)?;
    }
    Ok(())
}

fn number(text: &str) -> anyhow::Result<u64> {
    match text.parse::<u64>() {
        Ok(number) => Ok(number),
        Err(_) => bail!("no number"),
    }
}

// The index of an event, and the number of its name and the name.
fn put_event(meta: &TraceMeta, stream: u64, id: u64, out: &mut Vec<u8>) -> anyhow::Result<()> {
    match meta.find_event(stream, id) {
        Some(index) => put_event_at(meta, index, out)?,
        None => writeln!(out, "none")?,
    }
    Ok(())
}

fn put_event_at(meta: &TraceMeta, index: u32, out: &mut Vec<u8>) -> anyhow::Result<()> {
    let Some((_, parts)) = meta.event(index) else {
        bail!("no event");
    };
    write!(out, "event {index} name {} \"", parts.name)?;
    out.extend_from_slice(meta.event_name(parts.name).unwrap_or(&[]))?;
    out.extend_from_slice(b"\"\n")?;
    Ok(())
}
