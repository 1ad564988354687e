//! What a query asks.
use fcg_views::Set;

/// The part of a graph of which a page is asked.
#[derive(Clone, Copy, Debug, PartialEq, Eq)]
pub enum Page {
    /// The methods.
    Nodes,
    /// The edges, as pairs of methods.
    Edges,
}

/// A query for a page of the graph of a set of releases.
#[derive(Drop)]
pub struct GraphQuery {
    pub releases: Set,
    pub part: Page,
    /// The number of the first row, from 0.
    pub from: u64,
    /// The most rows: from 1 to 100,000 edges, and to 1,000 nodes.
    pub count: u32,
    /// The least length of the log over which it is answered.
    pub min: u64,
}

/// A field of a query's JSON, or the whole of it.
#[derive(Clone, Copy, Debug, PartialEq, Eq)]
pub enum FieldName {
    /// The whole value, which is no object.
    Body,
    Releases,
    Target,
    Part,
    From,
    Count,
    Min,
}
