//! How the body of a record is read.
ghost use Rattle.std.specs.Prelude.{◌≡◌, ◌≤◌, ◌+◌, ◌==◌, length, Ok, OnOk, IfOk};
ghost use Rattle.fcg_grammar.specs.Reading.{Gives};
ghost use Rattle.fcg_views.specs.Coordinate.{coordinate_of};
ghost use Rattle.fcg_book.specs.Entries.{LogEntry, command_of};
ghost use Rattle.fcg_book.specs.Spelling.{IsEntry, entry_text};
ghost use Rattle.fcg_book.specs.Reading.{u8_at, as_coordinate, content_at, entry_at};

use crate::entry::{Command, Entry};
use crate::write::MAGIC;
use fcg_grammar::{ReadError, read_part, read_u1, read_u2, read_u4};
use fcg_partial::{PartialGraph, RecordRule};
use fcg_views::Coordinate;
use std::alloc::Global;
use std::sync::Arc;

#[tactic(auto, unfolding(crate::specs::Reading::u8_at))]
fn read_u8(bytes: &[u8], at: usize) -> Result<u64, RecordRule>
    requires { at ≤ length bytes.now }
    ensures value { result ≡ u8_at bytes.now at }
    ensures inside { OnOk result (at + 8 ≤ length bytes.now) }
{
    let upper = read_u4(bytes, at, RecordRule::Cut)?;
    let lower = read_u4(bytes, at + 4, RecordRule::Cut)?;
    Ok(u64::from(upper) * 4_294_967_296 + u64::from(lower))
}

fn read_coordinate(alloc: Global, text: &[u8]) -> Result<Coordinate, ReadError<RecordRule>>
    ensures { Gives (λ c. c) result (as_coordinate (coordinate_of text.now)) }
{
    match Coordinate::parse(alloc, text) {
        Ok(coordinate) => Ok(coordinate),
        Err(ReadError::NoMemory) => Err(ReadError::NoMemory),
        Err(ReadError::Fault(_)) => Err(ReadError::Fault(RecordRule::Coordinate)),
    }
}

// What an import or a withdrawal says of its release, from a place to the end.
fn read_content(
    alloc: Global,
    bytes: &[u8],
    imports: bool,
    at: usize,
    coordinate: Coordinate,
) -> Result<Command, ReadError<RecordRule>>
    requires { at ≤ length bytes.now }
    ensures { Gives command_of result (content_at bytes.now imports at coordinate) }
{
    if !imports {
        if at != bytes.len() {
            return Err(ReadError::Fault(RecordRule::Trailing));
        }
        return Ok(Command::Withdraw { coordinate });
    }
    let (_, rest) = bytes.split_at(at);
    match PartialGraph::decode(alloc, rest) {
        Ok(graph) => Ok(Command::Import {
            coordinate,
            graph: Arc::new(alloc, graph)?,
        }),
        Err(ReadError::NoMemory) => Err(ReadError::NoMemory),
        Err(ReadError::Fault(fault)) => Err(ReadError::Fault(fault.rule)),
    }
}

// Reads a body from front to back.
#[tactic(auto, unfolding(crate::specs::Reading::entry_at))]
fn read_parts(alloc: Global, bytes: &[u8]) -> Result<Entry, ReadError<RecordRule>>
    ensures { Gives (λ e. e) result (entry_at bytes.now) }
{
    if read_u4(bytes, 0, RecordRule::Cut)? != MAGIC {
        return Err(ReadError::Fault(RecordRule::Magic));
    }
    if read_u2(bytes, 4, RecordRule::Cut)? != 1 {
        return Err(ReadError::Fault(RecordRule::Version));
    }
    let request = read_u8(bytes, 6)?;
    let kind = read_u1(bytes, 14, RecordRule::Cut)?;
    if kind != 1 && kind != 2 {
        return Err(ReadError::Fault(RecordRule::Command));
    }
    let size = usize::from(read_u2(bytes, 15, RecordRule::Cut)?);
    let text = read_part(bytes, 17, size, RecordRule::Cut)?;
    let coordinate = read_coordinate(alloc, text)?;
    let command = read_content(alloc, bytes, kind == 1, 17 + size, coordinate)?;
    Ok(Entry::new(request, command)?)
}

/// The entry that a body spells, or the first rule that it breaks. The graph's bytes are copied once.
pub(crate) fn read_entry(alloc: Global, bytes: &[u8]) -> Result<Entry, ReadError<RecordRule>>
    ensures value { Gives (λ e. e) result (entry_at bytes.now) }
    ensures found { IfOk result (λ e. (bytes.now ≡ entry_text e) × IsEntry e) }
    ensures only { (e : LogEntry) → IsEntry e → bytes.now ≡ entry_text e → Gives (λ x. x) result (Ok e) }
{
    read_parts(alloc, bytes)
}
