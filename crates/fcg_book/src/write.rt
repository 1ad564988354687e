//! How the body of a record is written.
ghost use Rattle.std.specs.Prelude.{◌≡◌, ◌++◌, ◌∷◌, [], OnOk, IfOk};
ghost use Rattle.fcg_grammar.specs.Spell.{u2, u4};
ghost use Rattle.fcg_book.specs.Entries.{command_of, entry_of};
ghost use Rattle.fcg_book.specs.Spelling.{u8, kind_number, content_text, coordinate_text, entry_text};

use crate::entry::Command;
use fcg_views::{Bytes, Coordinate};
use std::alloc::{AllocError, Global};

// The bytes `FCGK`, as a number.
pub(crate) const MAGIC: u32 = 0x4643_474b;

fn push_u2(out: &mut Vec<u8>, n: u16) -> Result<(), AllocError>
    ensures { OnOk result (out.new.items ≡ out.old.items ++ u2 n) }
{
    out.extend_from_slice(&n.to_be_bytes())
}

fn push_u4(out: &mut Vec<u8>, n: u32) -> Result<(), AllocError>
    ensures { OnOk result (out.new.items ≡ out.old.items ++ u4 n) }
{
    out.extend_from_slice(&n.to_be_bytes())
}

fn push_u8(out: &mut Vec<u8>, n: u64) -> Result<(), AllocError>
    ensures { OnOk result (out.new.items ≡ out.old.items ++ u8 n) }
{
    push_u4(out, (n / 4_294_967_296) as u32)?;
    push_u4(out, (n % 4_294_967_296) as u32)
}

fn push_coordinate(out: &mut Vec<u8>, coordinate: &Coordinate) -> Result<(), AllocError>
    ensures { OnOk result (out.new.items ≡ out.old.items ++ coordinate_text coordinate.now) }
{
    let text = coordinate.text();
    push_u2(out, text.len() as u16)?;
    out.extend_from_slice(text)
}

fn kind_of(command: &Command) -> u8
    ensures { result ≡ kind_number (command_of command.now) }
{
    match command {
        Command::Import { .. } => 1,
        Command::Withdraw { .. } => 2,
    }
}

// The bytes of the graph of an import.
fn push_content(out: &mut Vec<u8>, command: &Command) -> Result<(), AllocError>
    ensures { OnOk result (out.new.items ≡ out.old.items ++ content_text (command_of command.now)) }
{
    match command {
        Command::Import { graph, .. } => out.extend_from_slice(graph.as_bytes()),
        Command::Withdraw { .. } => Ok(()),
    }
}

/// The body of the record of a command with a request number. The graph is copied once.
pub(crate) fn write_entry(
    alloc: Global,
    request: u64,
    command: &Command,
) -> Result<Bytes, AllocError>
    ensures { IfOk result (λ body. body ≡ entry_text (entry_of request command.now)) }
{
    let mut out = Vec::new(alloc);
    push_u4(&mut out, MAGIC)?;
    push_u2(&mut out, 1)?;
    push_u8(&mut out, request)?;
    out.push(kind_of(command))?;
    push_coordinate(&mut out, command.coordinate())?;
    push_content(&mut out, command)?;
    Ok(Bytes::from(out))
}
