//! What a log says of a command: an answer, a refusal, or that it is to be entered.
ghost use Rattle.std.specs.Prelude.{◌≡◌, ◌≤◌, ◌<◌, ◌^◌, ℕ, length, IsErrOf, None};
ghost use Rattle.std.specs.Option.{option_map};
ghost use Rattle.fcg_book.specs.Entries.{command_of, entry_of};
ghost use Rattle.fcg_book.specs.Spelling.{entry_text, content_text};
ghost use Rattle.fcg_book.specs.Accept.{is_command_of, is_same_command, has_content, limited, decided, decided_live};
ghost use Rattle.fcg_book.specs.Office.{Differs};

use crate::answer::{Accepted, Refused};
use crate::entry::{Command, StoredEntry};
use crate::log::{MOST_ENTRIES, MOST_RELEASE_BYTES, MOST_STORE_BYTES};
use crate::register::Register;
use fcg_partial::PartialGraph;

// Whether a command is that of an entry.
fn is_command_of(entry: Option<&StoredEntry>, command: &Command) -> bool
    ensures { result ≡ is_command_of (option_map (λ e. e.now) entry.entry) (command_of command.now) }
{
    match entry {
        None => false,
        Some(entry) => is_same_command(&entry.command, command),
    }
}

fn is_same_command(one: &Command, other: &Command) -> bool
    ensures { result ≡ is_same_command (command_of one.now) (command_of other.now) }
{
    match (one, other) {
        (
            Command::Import { coordinate, graph },
            Command::Import {
                coordinate: other_coordinate,
                graph: other_graph,
            },
        ) => coordinate == other_coordinate && graph.as_bytes() == other_graph.as_bytes(),
        (
            Command::Withdraw { coordinate },
            Command::Withdraw {
                coordinate: other_coordinate,
            },
        ) => coordinate == other_coordinate,
        _ => false,
    }
}

// Whether an entry is an import with these views.
fn has_content(entry: Option<&StoredEntry>, graph: &PartialGraph) -> bool
    ensures { result ≡ has_content (option_map (λ e. e.now) entry.entry) graph.now }
{
    match entry {
        None => false,
        Some(entry) => match &entry.command {
            Command::Import {
                graph: standing,
                ..
            } => standing.as_bytes() == graph.as_bytes(),
            Command::Withdraw { .. } => false,
        },
    }
}

// How many bytes the graph of a command has.
pub(crate) fn content_len(command: &Command) -> u64
    ensures { result ≡ length (content_text (command_of command.now)) }
{
    match command {
        Command::Import { graph, .. } => graph.encoded_len(),
        Command::Withdraw { .. } => 0,
    }
}

// How many bytes the record of a command has.
fn entry_len(command: &Command) -> u64
    requires { length (content_text (command_of command.now)) ≤ MOST_RELEASE_BYTES }
    ensures len { (request : ℕ) → result ≡ length (entry_text (entry_of request command.now)) }
    ensures small { result < 2 ^ 63 }
{
    17 + command.coordinate().text().len() as u64 + content_len(command)
}

// The limits, where nothing else answers a command.
fn check_limits(
    register: &Register,
    request: u64,
    command: &Command,
) -> Result<Option<Accepted>, Refused>
    ensures value { result ≡ limited register.now.entries (entry_of request command.now) }
    ensures no_failure { ¬ (IsErrOf result Refused.KeeperFailed) }
    ensures no_difference { ¬ (Differs result) }
{
    let bytes = content_len(command);
    if bytes > MOST_RELEASE_BYTES {
        return Err(Refused::ReleaseTooLarge { bytes });
    }
    if register.log().len() >= MOST_ENTRIES {
        return Err(Refused::LogFull);
    }
    let bytes = register.bytes() + entry_len(command);
    if bytes > MOST_STORE_BYTES {
        return Err(Refused::StoreFull { bytes });
    }
    Ok(None)
}

// What is live of the release decides, where the request is new.
fn decide_live(
    register: &Register,
    request: u64,
    command: &Command,
    live: Option<u64>,
) -> Result<Option<Accepted>, Refused>
    ensures value { result ≡ decided_live register.now.entries (entry_of request command.now) (command_of command.now) live }
    ensures no_failure { ¬ (IsErrOf result Refused.KeeperFailed) }
    ensures no_difference { ¬ (Differs result) }
{
    match command {
        Command::Import { graph, .. } => match live {
            Some(entry) if has_content(register.log().entry(entry), graph) => {
                Ok(Some(Accepted::Standing { entry }))
            }
            _ => check_limits(register, request, command),
        },
        Command::Withdraw { .. } => match live {
            None => Err(Refused::AbsentRelease),
            Some(_) => check_limits(register, request, command),
        },
    }
}

/// What the log says of a command: an answer, a refusal, or nothing where it is to be entered. Takes no memory, and no
/// walk over the log: it costs two look-ups, and the bytes of the graphs where two are compared.
#[tactic(auto, unfolding(crate::specs::Accept::decided))]
pub(crate) fn decide(
    register: &Register,
    request: u64,
    command: &Command,
) -> Result<Option<Accepted>, Refused>
    ensures value { result ≡ decided register.now.entries (entry_of request command.now) }
    ensures no_failure { ¬ (IsErrOf result Refused.KeeperFailed) }
    ensures no_difference { ¬ (Differs result) }
{
    let Some(entry) = register.number_of(request) else {
        let live = register.log().live(command.coordinate());
        return decide_live(register, request, command, live);
    };
    if is_command_of(register.log().entry(entry), command) {
        return Ok(Some(Accepted::Repeated { entry }));
    }
    Err(Refused::RequestClash { entry })
}
