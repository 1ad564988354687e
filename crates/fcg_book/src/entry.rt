//! Commands, and the entries that they become in a log.
ghost use Rattle.std.specs.Prelude.{◌≡◌, Some, IfOk};
ghost use Rattle.fcg_book.specs.Entries.{coordinate_in, command_of, entry_of};
ghost use Rattle.fcg_book.specs.Internal.Asked.{imported};

use fcg_partial::{Part, PartialGraph};
use fcg_views::{Coordinate, NoMemory};
use std::alloc::AllocError;
use std::marker::Model;
use std::sync::Arc;

/// What is asked of a log.
#[derive(Drop)]
pub enum Command {
    /// The release has this content from now on.
    Import {
        coordinate: Coordinate,
        graph: Arc<PartialGraph>,
    },
    /// The release has no content any more.
    Withdraw {
        coordinate: Coordinate,
    },
}

impl Command {
    /// The release that the command names. Takes no memory.
    pub fn coordinate(&self) -> &Coordinate
        ensures { result.now ≡ coordinate_in (command_of self.now) }
    {
        match self {
            Command::Import { coordinate, .. } => coordinate,
            Command::Withdraw { coordinate } => coordinate,
        }
    }

    // A copy, which shares the graph.
    fn copy(&self) -> Result<Command, AllocError>
        ensures { IfOk result (λ copy. command_of copy ≡ command_of self.now) }
    {
        match self {
            Command::Import { coordinate, graph } => Ok(Command::Import {
                coordinate: coordinate.clone()?,
                graph: graph.clone()?,
            }),
            Command::Withdraw { coordinate } => Ok(Command::Withdraw {
                coordinate: coordinate.clone()?,
            }),
        }
    }
}

// An entry as a log keeps it.
#[derive(Drop)]
pub(crate) struct StoredEntry {
    pub(crate) request: u64,
    pub(crate) command: Command,
}

impl Model for StoredEntry {
    ghost use Rattle.fcg_book.specs.Entries.{LogEntry, entry_of};

    ghost Value = { LogEntry };

    ghost view = { λ e. entry_of e.request e.command };
}

impl StoredEntry {
    // A copy to be given away, which shares the graph.
    pub(crate) fn copy(&self) -> Result<Entry, NoMemory>
        ensures { IfOk result (λ copy. copy ≡ self.now) }
    {
        Entry::new(self.request, self.command.copy()?)
    }

    // The release of an import.
    pub(crate) fn part(&self) -> Result<Option<Part>, AllocError>
        ensures { IfOk result (λ part. part ≡ imported (Some self.now)) }
    {
        match &self.command {
            Command::Import { coordinate, graph } => Ok(Some(Part {
                coordinate: coordinate.clone()?,
                graph: graph.clone()?,
            })),
            Command::Withdraw { .. } => Ok(None),
        }
    }
}

/// A command that was accepted, with the number of its request. It has what a log needs to add it without memory, so
/// it is made by `new` and by copying alone.
#[derive(Drop)]
pub struct Entry {
    stored: StoredEntry,
    // the release that the command names, to be looked up by
    key: Coordinate,
}

impl Model for Entry {
    ghost use Rattle.std.specs.Prelude.{◌≡◌};
    ghost use Rattle.fcg_book.specs.Entries.{LogEntry, coordinate_in};

    ghost Value = { LogEntry };

    ghost view = { λ e. e.stored };

    ghost invariant = { λ e. e.key ≡ coordinate_in e.stored.command };
}

impl Entry {
    /// The entry of a command under the number of its request.
    pub fn new(request: u64, command: Command) -> Result<Entry, NoMemory>
        ensures { IfOk result (λ entry. entry ≡ entry_of request command) }
    {
        let key = command.coordinate().clone()?;
        Ok(Entry {
            stored: StoredEntry { request, command },
            key,
        })
    }

    /// The number of the request. Takes no memory.
    pub fn request(&self) -> u64
        ensures { result ≡ self.now.request }
    {
        self.stored.request
    }

    /// The command. Takes no memory.
    pub fn command(&self) -> &Command
        ensures { command_of result.now ≡ self.now.command }
    {
        &self.stored.command
    }

    /// A copy, which shares the graph.
    pub fn copy(&self) -> Result<Entry, NoMemory>
        ensures { IfOk result (λ copy. copy ≡ self.now) }
    {
        self.stored.copy()
    }

    // The entry as a log keeps it, and the release that it names.
    pub(crate) fn into_parts(self) -> (StoredEntry, Coordinate)
        ensures stored { result.0 ≡ self }
        ensures key { result.1 ≡ coordinate_in self.command }
    {
        (self.stored, self.key)
    }
}
