//! What a command over a store comes to.
ghost use Rattle.std.specs.Prelude.{◌≡◌};
ghost use Rattle.fcg_commands.specs.Outcomes.{rule_number, opening_outcome, accepted_reply, refused_outcome, submit_outcome, query_outcome};

use fcg_book::{Accepted, OpenRefusal, Refused};
use fcg_json::{CommandOutcome, Reply};
use fcg_keeper::KeeperRefusal;
use fcg_partial::RecordRule;
use fcg_views::Coordinate;

/// What a command over a store comes to.
#[derive(Drop)]
pub enum Outcome {
    /// It is answered.
    Answered(Reply),
    /// It is refused.
    Refused(Reply),
    /// The records of the store are those of no log.
    BadStore(Reply),
    /// The stores or the keeper failed, and counted it.
    KeeperFailed,
    /// There was no memory.
    NoMemory,
}

impl From<KeeperRefusal> for Outcome {
    ghost use Rattle.fcg_commands.specs.Outcomes.{keeper_outcome};

    ghost from_gives = { λ refusal outcome. outcome ≡ keeper_outcome refusal };

    fn from(refusal: KeeperRefusal) -> Outcome {
        match refusal {
            KeeperRefusal::NoMemory => Outcome::NoMemory,
            KeeperRefusal::Failed => Outcome::KeeperFailed,
        }
    }
}

fn rule_number(rule: RecordRule) -> u8
    ensures { result ≡ rule_number rule }
{
    match rule {
        RecordRule::Magic => 1,
        RecordRule::Version => 2,
        RecordRule::Cut => 3,
        RecordRule::Order => 4,
        RecordRule::Index => 5,
        RecordRule::Kind => 6,
        RecordRule::DoubleMethod => 7,
        RecordRule::ManySites => 8,
        RecordRule::Trailing => 9,
        RecordRule::Unused => 10,
        RecordRule::Coordinate => 11,
        RecordRule::Number => 12,
        RecordRule::Withdraw => 13,
        RecordRule::Limit => 14,
        RecordRule::Command => 15,
    }
}

// A store that isn't opened.
pub(crate) fn opening_outcome(refusal: OpenRefusal) -> Outcome
    ensures { result ≡ opening_outcome refusal }
{
    match refusal {
        OpenRefusal::NoMemory => Outcome::NoMemory,
        OpenRefusal::KeeperFailed => Outcome::KeeperFailed,
        OpenRefusal::Sequence { seq } => Outcome::BadStore(Reply::Sequence { seq }),
        OpenRefusal::BadRecord { seq, rule } => Outcome::BadStore(Reply::BadRecord {
            rule: rule_number(rule),
            seq,
        }),
    }
}

fn accepted_reply(at: u64, accepted: Accepted) -> Reply
    ensures { result ≡ accepted_reply at accepted }
{
    let (entry, outcome) = match accepted {
        Accepted::Entered { entry } => (entry, CommandOutcome::Entered),
        Accepted::Repeated { entry } => (entry, CommandOutcome::Repeated),
        Accepted::Standing { entry } => (entry, CommandOutcome::Standing),
    };
    Reply::Command { at, entry, outcome }
}

fn refused_outcome(at: u64, release: Coordinate, refused: Refused) -> Outcome
    ensures { result ≡ refused_outcome at release refused }
{
    match refused {
        Refused::NoMemory => Outcome::NoMemory,
        Refused::RequestClash { entry } => Outcome::Refused(Reply::RequestClash { entry }),
        Refused::AbsentRelease => Outcome::Refused(Reply::AbsentRelease {
            at,
            coordinate: release,
        }),
        Refused::ReleaseTooLarge { bytes } => Outcome::Refused(Reply::ReleaseTooLarge { bytes }),
        Refused::LogFull => Outcome::Refused(Reply::LogFull { entries: 1_000_000 }),
        Refused::StoreFull { bytes } => Outcome::Refused(Reply::StoreFull { bytes }),
        Refused::KeeperFailed => Outcome::KeeperFailed,
        Refused::StoreDiffers { found } => Outcome::Refused(Reply::StoreDiffers { seq: found.seq }),
    }
}

// What a submit comes to, over a log that has so many entries after it.
pub(crate) fn submit_outcome(
    at: u64,
    release: Coordinate,
    answer: Result<Accepted, Refused>,
) -> Outcome
    ensures { result ≡ submit_outcome at release answer }
{
    match answer {
        Ok(accepted) => Outcome::Answered(accepted_reply(at, accepted)),
        Err(refused) => refused_outcome(at, release, refused),
    }
}

// What is answered to a query, as an answer or a refusal.
pub(crate) fn query_outcome(reply: Reply) -> Outcome
    ensures { result ≡ query_outcome reply }
{
    match &reply {
        Reply::Releases { .. } | Reply::Edges { .. } | Reply::Nodes { .. } => Outcome::Answered(
            reply,
        ),
        _ => Outcome::Refused(reply),
    }
}
