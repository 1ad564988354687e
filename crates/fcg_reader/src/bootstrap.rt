//! Bootstrap methods (JVMS 4.7.23).
ghost use Rattle.std.specs.Prelude.{◌≡◌, ◌≤◌, ℕ, length, OnOk, IfOk};
ghost use Rattle.fcg_grammar.specs.Reading.{seen, Gives};
ghost use Rattle.fcg_grammar.specs.Rows.{rows};
ghost use Rattle.fcg_classfile.specs.Breaks.Pool.{Entries};
ghost use Rattle.fcg_classfile.specs.Breaks.Attributes.{over};
ghost use Rattle.fcg_classfile.specs.Breaks.Bootstrap.{argument_at, row_at, rows_at};

use crate::number::read_u2;
use fcg_classfile::{ClassFault, ClassRule, fault_at};
use fcg_grammar::ReadError;
use std::alloc::Global;
use std::marker::Model;

/// A bootstrap method (JVMS 4.7.23): the index of a method handle, and those of the static arguments.
#[derive(Drop)]
pub struct Row {
    handle: u16,
    arguments: Vec<u16>,
}

impl Model for Row {
    ghost use Rattle.fcg_classfile.specs.ClassFile.{BootstrapMethod};

    ghost Value = { BootstrapMethod };

    ghost view = { λ row. record { handle = row.handle; arguments = row.arguments.items } };
}

impl Row {
    /// The index of the method handle.
    pub fn handle(&self) -> u16
        ensures { result ≡ self.now.handle }
    {
        self.handle
    }

    /// The indexes of the static arguments.
    pub fn arguments(&self) -> &[u16]
        ensures { result.now ≡ self.now.arguments }
    {
        self.arguments.as_slice()
    }
}

// The index that stands at a place, and the place after it.
#[tactic(auto, unfolding(fcg_classfile::specs::Breaks::Bootstrap::argument_at))]
fn read_argument(bytes: &[u8], at: usize) -> Result<(u16, usize), ClassFault>
    requires { at ≤ length bytes.now }
    ensures value { (k : ℕ) → result ≡ argument_at bytes.now k at }
    ensures inside { IfOk result (λ x. x.1 ≤ length bytes.now) }
{
    let index = read_u2(bytes, at, 0)?;
    Ok((index, at + 2))
}

// So many indexes, and the place after them.
fn read_arguments(
    alloc: Global,
    bytes: &[u8],
    count: u16,
    at: usize,
) -> Result<(Vec<u16>, usize), ReadError<ClassFault>>
    requires { at ≤ length bytes.now }
    ensures value { Gives (λ x. (x.0.items, x.1)) result (rows (argument_at bytes.now) count 0 at) }
    ensures inside { IfOk result (λ x. x.1 ≤ length bytes.now) }
{
    let mut arguments = Vec::new(alloc);
    let mut place = at;
    for _ in 0..count {
        let (index, after) = read_argument(bytes, place)?;
        arguments.push(index)?;
        place = after;
    }
    Ok((arguments, place))
}

// The bootstrap method that stands at a place, and the place after it.
#[tactic(auto, unfolding(fcg_classfile::specs::Breaks::Bootstrap::row_at))]
fn read_row(alloc: Global, bytes: &[u8], at: usize) -> Result<(Row, usize), ReadError<ClassFault>>
    requires { at ≤ length bytes.now }
    ensures value { (k : ℕ) → Gives (λ x. (x.0, x.1)) result (row_at bytes.now k at) }
    ensures inside { IfOk result (λ x. x.1 ≤ length bytes.now) }
{
    let handle = read_u2(bytes, at, 0)?;
    let count = read_u2(bytes, at + 2, 0)?;
    let (arguments, after) = read_arguments(alloc, bytes, count, at + 4)?;
    Ok((Row { handle, arguments }, after))
}

// So many bootstrap methods, and the place after them.
fn read_row_list(
    alloc: Global,
    bytes: &[u8],
    count: u16,
    at: usize,
) -> Result<(Vec<Row>, usize), ReadError<ClassFault>>
    requires { at ≤ length bytes.now }
    ensures value { Gives (λ x. (x.0.items, x.1)) result (rows (row_at bytes.now) count 0 at) }
    ensures inside { IfOk result (λ x. x.1 ≤ length bytes.now) }
{
    let mut list = Vec::new(alloc);
    let mut place = at;
    for _ in 0..count {
        let (row, after) = read_row(alloc, bytes, place)?;
        list.push(row)?;
        place = after;
    }
    Ok((list, place))
}

/// The bootstrap methods of a class. `bytes` are the file up to the end of the content of the attribute
/// BootstrapMethods, which stands from `at` on.
///
/// The first fault in reading order is one of these: a number passes the content's end, which is the fault `Cut` at the
/// number's first byte; bytes stand after the last row, which is the fault `Trailing` at the first of them. What the
/// indexes name isn't looked at.
///
/// It makes one pass over the content. It takes memory for the rows.
#[tactic(auto, unfolding(fcg_classfile::specs::Breaks::Bootstrap::rows_at))]
pub fn read_rows(alloc: Global, bytes: &[u8], at: usize) -> Result<Vec<Row>, ReadError<ClassFault>>
    requires { at ≤ length bytes.now }
    ensures { (pool : Entries) → Gives (λ rows. rows.items) result (rows_at (over bytes.now pool) at) }
{
    let count = read_u2(bytes, at, 0)?;
    let (list, end) = read_row_list(alloc, bytes, count, at + 2)?;
    if bytes.len() != end {
        return Err(ReadError::Fault(fault_at(end, 0, ClassRule::Trailing)));
    }
    Ok(list)
}
