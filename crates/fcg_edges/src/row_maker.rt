//! Rows of edges, made caller by caller.
ghost use Rattle.std.specs.Prelude.{◌≡◌, ℕ, ◌<◌, All, length, IfOk, OnOk, OnErr};
ghost use Rattle.fcg_edges.specs.Rows.{IsList, IsWithCaller, no_rows, with_list, leads, edges_of};

use crate::edge_rows::EdgeRows;
use crate::kept_lists::find_uses;
use crate::marking::keep_unmarked;
use std::alloc::{AllocError, Global};
use std::marker::Model;

/// Makes rows of edges, one caller after another. Contracts see the rows so far.
#[derive(Drop)]
pub struct RowMaker {
    rows: EdgeRows,
    // of each node the turn in which it was last met
    marks: Vec<u32>,
}

impl Model for RowMaker {
    ghost use Rattle.fcg_edges.specs.Rows.{Rows};
    ghost use Rattle.fcg_edges.specs.Internal.Tables.{AreMarks};

    ghost Value = { Rows };

    ghost view = { λ m. m.rows };

    ghost invariant = { λ m. AreMarks m.rows m.marks.items };
}

impl RowMaker {
    /// Begins with so many nodes, and no caller. The only error is want of memory, of which it takes four bytes a node.
    pub fn new(alloc: Global, count: u32) -> Result<RowMaker, AllocError>
        ensures { IfOk result (λ m. m ≡ no_rows count) }
    {
        let rows = EdgeRows::new(alloc, count)?;
        let marks = vec![in alloc; 0u32; count as usize]?;
        Ok(RowMaker { rows, marks })
    }

    /// Adds a list of nodes, which rises, and says its number. The only error is want of memory.
    pub fn add_list(&mut self, list: &[u32]) -> Result<u32, AllocError>
        requires { IsList self.old.count list.now }
        ensures number { IfOk result (λ l. l ≡ length self.old.lists) }
        ensures ok { OnOk result (self.new ≡ with_list self.old list.now) }
        ensures before { (a b : ℕ) → a < length self.old.targets → leads self.new a b ≡ leads self.old a b }
        ensures err { OnErr result (self.new ≡ self.old) }
    {
        self.rows.push_list(list)
    }

    /// How many edges there are so far.
    pub fn edge_count(&self) -> u64
        ensures { result ≡ length (edges_of self.now) }
    {
        self.rows.edge_count()
    }

    /// Adds the next caller, with targets and with the numbers of lists, in any order, and also more than once each.
    ///
    /// A list whose targets other lists have is left out, and so is a target that a list has. Where lists overlap otherwise,
    /// all their targets are written out as a list of the caller's own. It goes once over the targets of each list that is
    /// named, and once more where lists overlap; it sorts the lists by their lengths, and the targets. The only error is want
    /// of memory.
    pub fn add_caller(
        self,
        alloc: Global,
        targets: &mut Vec<u32>,
        uses: &mut Vec<u32>,
    ) -> Result<RowMaker, AllocError>
        requires more { length self.targets < self.count }
        requires targets { All (λ b. b < self.count) targets.old.items }
        requires uses { All (λ l. l < length self.lists) uses.old.items }
        ensures { IfOk result (λ m. IsWithCaller self m targets.old.items uses.old.items) }
    {
        let mut rows = self.rows;
        let mut marks = self.marks;
        let turn = rows.caller_count() + 1;
        let kept = find_uses(alloc, &mut rows, &mut marks, uses, turn)?;
        keep_unmarked(targets, &marks, turn);
        let size = rows.row_size(targets, &kept);
        let rows = rows.with_row(targets, &kept, size)?;
        Ok(RowMaker { rows, marks })
    }

    /// The rows.
    pub fn finish(self) -> EdgeRows
        ensures { result ≡ self }
    {
        self.rows
    }
}
