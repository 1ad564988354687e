//! What may be asked of a book.

use fcg_json::GraphQuery;

/// A query.
#[derive(Drop)]
pub enum Query {
    /// A page of the call graph of a set of releases.
    Graph(GraphQuery),
    /// Which releases are live.
    Releases,
}
