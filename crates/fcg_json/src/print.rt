//! The text of a reply.
ghost use Rattle.std.specs.Prelude.{◌≡◌, IfOk, codes, map};
ghost use Rattle.serde_json.specs.View.{view};
ghost use Rattle.fcg_json.specs.Reply.{reply_data, text_of_reply, page_data, pair_data, node_data};
ghost use Rattle.fcg_json.specs.declared.reply.Reply.TheVariants as replies;

use crate::answer::{Counts, command_value, page_value, releases_value};
use crate::refusal::{
    absent_release, bad_bundle, bad_class, bad_coordinate, bad_record, bad_uri, refusal, with_at,
    with_bytes, with_count, with_entries, with_entry, with_limit, with_name, with_seq,
};
use crate::reply::{NodeRows, Pairs, Reply};
use crate::row::{nodes_value, pairs_value};
use fcg_views::{Bytes, NoMemory};
use serde_json::Value;
use std::alloc::{AllocError, Global};

// A page of edges.
fn edges_value(
    alloc: Global,
    at: u64,
    counts: Counts,
    from: u64,
    rows: &Pairs,
) -> Result<Value, AllocError>
    ensures { IfOk result (λ v. view v ≡ page_data at (record { edges = counts.edges; failed = counts.failed; nodes = counts.nodes; phantoms = counts.phantoms }) from (codes "edges") (map pair_data rows.now)) }
{
    let rows = pairs_value(alloc, rows.as_slice())?;
    page_value(alloc, at, counts, from, "edges", rows)
}

// A page of nodes.
fn methods_value(
    alloc: Global,
    at: u64,
    counts: Counts,
    from: u64,
    rows: &NodeRows,
) -> Result<Value, NoMemory>
    ensures { IfOk result (λ v. view v ≡ page_data at (record { edges = counts.edges; failed = counts.failed; nodes = counts.nodes; phantoms = counts.phantoms }) from (codes "nodes") (map node_data rows.now)) }
{
    let rows = nodes_value(alloc, rows.as_slice())?;
    Ok(page_value(alloc, at, counts, from, "nodes", rows)?)
}

// The value of a reply.
#[tactic(auto, unfolding(crate::specs::Reply::reply_data))]
fn reply_value(alloc: Global, reply: &Reply) -> Result<Value, NoMemory>
    ensures { IfOk result (λ v. view v ≡ reply_data reply.now) }
{
    let value = match reply {
        Reply::Command { at, entry, outcome } => command_value(alloc, *at, *entry, *outcome),
        Reply::Releases { at, releases } => releases_value(alloc, *at, releases),
        Reply::Edges {
            at,
            edges,
            failed,
            from,
            nodes,
            phantoms,
            rows,
        } => edges_value(
            alloc,
            *at,
            Counts {
                edges: *edges,
                failed: *failed,
                nodes: *nodes,
                phantoms: *phantoms,
            },
            *from,
            rows,
        ),
        Reply::Nodes {
            at,
            edges,
            failed,
            from,
            nodes,
            phantoms,
            rows,
        } => return methods_value(
            alloc,
            *at,
            Counts {
                edges: *edges,
                failed: *failed,
                nodes: *nodes,
                phantoms: *phantoms,
            },
            *from,
            rows,
        ),
        Reply::BadHead => refusal(alloc, "BadHead"),
        Reply::BadLength => refusal(alloc, "BadLength"),
        Reply::BadNumber => refusal(alloc, "BadNumber"),
        Reply::NotJson => refusal(alloc, "NotJson"),
        Reply::NoRoute => refusal(alloc, "NoRoute"),
        Reply::NoLength => refusal(alloc, "NoLength"),
        Reply::Jar => refusal(alloc, "Jar"),
        Reply::Coded => refusal(alloc, "Coded"),
        Reply::KeeperFailed => refusal(alloc, "KeeperFailed"),
        Reply::NoMemory => refusal(alloc, "NoMemory"),
        Reply::Absent => refusal(alloc, "Absent"),
        Reply::TooLong => refusal(alloc, "TooLong"),
        Reply::MissingField { name } => with_name(alloc, "MissingField", *name),
        Reply::BadField { name } => with_name(alloc, "BadField", *name),
        Reply::TooManyReleases { count } => with_count(alloc, *count, "TooManyReleases"),
        Reply::BadCoordinate { index, fault } => bad_coordinate(alloc, *index, *fault),
        Reply::BadUri { fault } => bad_uri(alloc, *fault),
        Reply::WrongMethod { .. } => refusal(alloc, "WrongMethod"),
        Reply::BodyTooLong { limit } => with_limit(alloc, "BodyTooLong", u64::from(*limit)),
        Reply::BadBundle {
            entry,
            offset,
            rule,
        } => bad_bundle(alloc, *entry, *offset, *rule),
        Reply::BadClass {
            entry,
            index,
            offset,
            rule,
        } => bad_class(alloc, *entry, *index, *offset, *rule),
        Reply::AbsentRelease { at, coordinate } => absent_release(alloc, *at, coordinate),
        Reply::RequestClash { entry } => with_entry(alloc, *entry, "RequestClash"),
        Reply::Behind { at } => with_at(alloc, *at, "Behind"),
        Reply::StoreDiffers { seq } => with_seq(alloc, "StoreDiffers", *seq),
        Reply::ReleaseTooLarge { bytes } => with_bytes(alloc, *bytes, "ReleaseTooLarge"),
        Reply::StoreFull { bytes } => with_bytes(alloc, *bytes, "StoreFull"),
        Reply::SetTooLarge { bytes } => with_bytes(alloc, *bytes, "SetTooLarge"),
        Reply::LogFull { entries } => with_entries(alloc, *entries, "LogFull"),
        Reply::GraphTooLarge { limit } => with_limit(alloc, "GraphTooLarge", *limit),
        Reply::BadPath { entry } => with_entry(alloc, u64::from(*entry), "BadPath"),
        Reply::BadRecord { rule, seq } => bad_record(alloc, *rule, *seq),
        Reply::Sequence { seq } => with_seq(alloc, "Sequence", *seq),
    };
    Ok(value?)
}

/// The text of a reply, as JSON: an object without spaces, with its fields in the order of their bytes. A refusal has the
/// field `fault`, its name, beside what it tells. A rule is printed by its name, and as the empty text where none has its
/// number.
///
/// Takes time and memory linear in the rows of the reply and in the bytes of the texts that it tells: each row is copied
/// into the value that is printed, and from there into the text.
#[tactic(auto, using(crate::proofs::Floats::no_floats))]
pub fn print_reply(alloc: Global, reply: &Reply) -> Result<Bytes, NoMemory>
    ensures { IfOk result (λ out. out ≡ text_of_reply reply.now) }
{
    let text = reply_value(alloc, reply)?.to_vec(alloc)?;
    Ok(Bytes::from(text))
}
