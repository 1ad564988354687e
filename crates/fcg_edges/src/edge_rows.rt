//! Rows of edges.
ghost use Rattle.std.specs.Prelude.{◌≡◌, ◌<◌, All, length, IfOk, OnOk, OnErr};
ghost use Rattle.fcg_order.specs.Links.{row};
ghost use Rattle.fcg_edges.specs.Rows.{IsList, IsWithCaller, no_rows, with_list};
ghost use Rattle.fcg_edges.specs.Internal.Making.{AreWithLists};
ghost use Rattle.fcg_edges.specs.Internal.Tables.{IsRow, size_of, with_row};

use fcg_order::Links;
use std::alloc::{AllocError, Global};
use std::marker::Model;

/// The edges of callers, which are the first of some nodes, numbered from 0. Each caller has targets of its own and uses
/// lists, by their numbers from 0; no two of these have a target in common, and each of them rises. Contracts see the
/// targets, the uses and the lists.
///
/// A caller takes 24 bytes, and each target or list in a row and each target in a list four.
#[derive(Drop)]
pub struct EdgeRows {
    count: u32,
    targets: Links,
    uses: Links,
    lists: Links,
    // how many edges there are before each caller, and at the end how many there are
    pub(crate) firsts: Vec<u64>,
}

impl Model for EdgeRows {
    ghost use Rattle.fcg_edges.specs.Rows.{Rows};
    ghost use Rattle.fcg_edges.specs.Internal.Tables.{AreRows};

    ghost Value = { Rows };

    ghost view = { λ r. record { count = r.count; targets = r.targets; uses = r.uses; lists = r.lists } };

    ghost invariant = { λ r. AreRows (record { count = r.count; targets = r.targets; uses = r.uses; lists = r.lists }) r.firsts.items };
}

impl EdgeRows {
    // Rows of so many nodes, without a caller or a list.
    pub(crate) fn new(alloc: Global, count: u32) -> Result<EdgeRows, AllocError>
        ensures { IfOk result (λ r. r ≡ no_rows count) }
    {
        Ok(EdgeRows {
            count,
            targets: Links::new(alloc)?,
            uses: Links::new(alloc)?,
            lists: Links::new(alloc)?,
            firsts: vec![in alloc; 0u64; 1]?,
        })
    }

    // Adds a list, and says its number.
    pub(crate) fn push_list(&mut self, list: &[u32]) -> Result<u32, AllocError>
        requires { IsList self.old.count list.now }
        ensures number { IfOk result (λ l. l ≡ length self.old.lists) }
        ensures ok { OnOk result (self.new ≡ with_list self.old list.now) }
        ensures err { OnErr result (self.new ≡ self.old) }
        ensures before { OnOk result (AreWithLists self.old self.new) }
    {
        let number = self.lists.len() as u32;
        if number == u32::MAX {
            return Err(AllocError);
        }
        self.lists.push_row(list)?;
        Ok(number)
    }

    // How many targets a caller has that has these targets and uses these lists.
    pub(crate) fn row_size(&self, targets: &[u32], uses: &[u32]) -> u64
        requires { IsRow self.now.count self.now.lists targets.now uses.now }
        ensures { result ≡ size_of self.now.lists targets.now uses.now }
    {
        let mut size = targets.len() as u64;
        for l in uses {
            size += self.lists.row(*l as usize).len() as u64;
        }
        size
    }

    // The rows with those of one caller more, which has so many targets.
    pub(crate) fn with_row(
        self,
        targets: &[u32],
        uses: &[u32],
        size: u64,
    ) -> Result<EdgeRows, AllocError>
        requires more { length self.targets < self.count }
        requires row { IsRow self.count self.lists targets.now uses.now }
        requires size { size ≡ size_of self.lists targets.now uses.now }
        ensures rows { IfOk result (λ r. r ≡ with_row self targets.now uses.now) }
        ensures caller { IfOk result (λ r. IsWithCaller self r targets.now uses.now) }
    {
        let mut rows = self;
        let first = rows.firsts[rows.firsts.len() - 1] + size;
        rows.targets.push_row(targets)?;
        rows.uses.push_row(uses)?;
        rows.firsts.push(first)?;
        Ok(rows)
    }

    /// How many nodes there are.
    pub fn node_count(&self) -> u32
        ensures { result ≡ self.now.count }
    {
        self.count
    }

    /// How many callers there are.
    pub fn caller_count(&self) -> u32
        ensures { result ≡ length self.now.targets }
    {
        self.targets.len() as u32
    }

    /// How many lists there are.
    pub fn list_count(&self) -> u32
        ensures { result ≡ length self.now.lists }
    {
        self.lists.len() as u32
    }

    /// The own targets of a caller.
    pub fn targets(&self, a: u32) -> &[u32]
        requires { a < length self.now.targets }
        ensures value { result.now ≡ row self.now.targets a }
        ensures list { IsList self.now.count result.now }
    {
        self.targets.row(a as usize)
    }

    /// The numbers of the lists that a caller uses.
    pub fn uses(&self, a: u32) -> &[u32]
        requires { a < length self.now.targets }
        ensures value { result.now ≡ row self.now.uses a }
        ensures there { All (λ l. l < length self.now.lists) result.now }
    {
        self.uses.row(a as usize)
    }

    /// The targets of a list.
    pub fn list(&self, l: u32) -> &[u32]
        requires { l < length self.now.lists }
        ensures value { result.now ≡ row self.now.lists l }
        ensures list { IsList self.now.count result.now }
    {
        self.lists.row(l as usize)
    }
}
