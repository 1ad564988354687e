//! Replies.
use crate::query::FieldName;
use fcg_views::{Coordinate, CoordinateFault, Items, MethodUri, Set, UriFault};

/// Edges, each as the numbers of its caller and its target.
pub type Pairs = Items<(u32, u32)>;

/// Methods, in the order of their numbers.
pub type NodeRows = Items<MethodUri>;

/// What became of a command.
#[derive(Clone, Copy, Debug, PartialEq, Eq)]
pub enum CommandOutcome {
    /// It was entered in the log.
    Entered,
    /// An earlier entry has its request number and is the same command.
    Repeated,
    /// An earlier entry says the same and stands.
    Standing,
}

/// The methods that a path may be asked by.
#[derive(Clone, Copy, Debug, PartialEq, Eq)]
pub enum Allow {
    Get,
    PutDelete,
    Post,
}

/// What is answered to a request or a command, or why it is refused. `at` is the length of the log: after a command, and
/// where a query looked at it. A `rule` that is a number is that of a rule in the order of its list, from 1.
#[derive(Drop)]
pub enum Reply {
    /// A command was taken: the entry with the number `entry` says what it asks.
    Command {
        at: u64,
        entry: u64,
        outcome: CommandOutcome,
    },
    /// The live releases, by the bytes of their coordinates.
    Releases {
        at: u64,
        releases: Set,
    },
    /// A page of edges, from the row `from` on, and how many edges, failed calls, nodes and phantoms the graph has.
    Edges {
        at: u64,
        edges: u64,
        failed: u64,
        from: u64,
        nodes: u32,
        phantoms: u64,
        rows: Pairs,
    },
    /// A page of nodes, from the row `from` on, and how many edges, failed calls, nodes and phantoms the graph has.
    Nodes {
        at: u64,
        edges: u64,
        failed: u64,
        from: u64,
        nodes: u32,
        phantoms: u64,
        rows: NodeRows,
    },
    /// The bytes of a request begin with no head.
    BadHead,
    /// A request has two lengths, or one that is no number.
    BadLength,
    /// A command has no request number, two, or one that is no number.
    BadNumber,
    /// The body of a query is no JSON.
    NotJson,
    /// No path leads there.
    NoRoute,
    /// A request that has to tell its length doesn't.
    NoLength,
    /// A jar stands where a bundle is wanted.
    Jar,
    /// The body of a request is encoded for its transfer.
    Coded,
    /// The keeper of the records failed.
    KeeperFailed,
    /// Memory was wanted.
    NoMemory,
    /// A folder isn't there.
    Absent,
    /// The files of a folder are too long for a bundle.
    TooLong,
    /// A query lacks a field.
    MissingField {
        name: FieldName,
    },
    /// A field of a query is of another kind or out of range.
    BadField {
        name: FieldName,
    },
    /// A query names so many releases, more than 512.
    TooManyReleases {
        count: u32,
    },
    /// A text is no coordinate: the one at `index` of the releases of a query, or the only one, with the index 0.
    BadCoordinate {
        index: u32,
        fault: CoordinateFault,
    },
    /// A text is no method URI.
    BadUri {
        fault: UriFault,
    },
    /// The path is asked by other methods.
    WrongMethod {
        allow: Allow,
    },
    /// A body is longer than so many bytes.
    BodyTooLong {
        limit: u32,
    },
    /// A bundle breaks a rule, at an entry and a place in its bytes.
    BadBundle {
        entry: u32,
        offset: u32,
        rule: u8,
    },
    /// The class file of an entry breaks a rule, at a place in its bytes and an index of its constants.
    BadClass {
        entry: u32,
        index: u16,
        offset: u32,
        rule: u8,
    },
    /// A release isn't live.
    AbsentRelease {
        at: u64,
        coordinate: Coordinate,
    },
    /// The entry with this number has the request number of another command.
    RequestClash {
        entry: u64,
    },
    /// The log is shorter than a query asks.
    Behind {
        at: u64,
    },
    /// The store holds another record than the one that was to stand there.
    StoreDiffers {
        seq: u64,
    },
    /// The graph of a release has too many bytes.
    ReleaseTooLarge {
        bytes: u64,
    },
    /// The records would have too many bytes.
    StoreFull {
        bytes: u64,
    },
    /// The graphs of a set have too many bytes.
    SetTooLarge {
        bytes: u64,
    },
    /// The log has as many entries as it may.
    LogFull {
        entries: u64,
    },
    /// The graph of a set has more edges than this limit.
    GraphTooLarge {
        limit: u64,
    },
    /// A path of a folder may not stand in a bundle.
    BadPath {
        entry: u32,
    },
    /// A record breaks a rule of the store.
    BadRecord {
        rule: u8,
        seq: u64,
    },
    /// The record with this number isn't at its place in the store.
    Sequence {
        seq: u64,
    },
}
