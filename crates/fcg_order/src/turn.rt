//! Rows of numbers, turned round.
ghost use Rattle.std.specs.Prelude.{◌≡◌, ◌<◌, ◌≤◌, ◌+◌, ◌^◌, length, IfOk, OnOk, suc, slice_index_or};
ghost use Rattle.fcg_order.specs.Turn.{HaveRising, AreTurned};
ghost use Rattle.fcg_order.specs.Internal.Turn.{turned_from, sizes_of, sum_first, AreCounted, AreSums, AreEnds, ArePlaced};

use crate::links::Links;
use std::alloc::{AllocError, Global};

// Counts the numbers of a row, where the rows behind it are counted.
fn count_row(counts: &mut [usize], rows: &Links, x: usize)
    requires few { length rows.now < 2 ^ 32 }
    requires there { x < length rows.now }
    requires rows { HaveRising rows.now (length counts.old) }
    requires counted { AreCounted (turned_from rows.now (x + 1)) counts.old }
    ensures long { length counts.new ≡ length counts.old }
    ensures counted { AreCounted (turned_from rows.now x) counts.new }
{
    for number in rows.row(x) {
        counts[*number as usize] += 1;
    }
}

// Of each number below the count how many rows have it, and a zero.
fn count_rows(alloc: Global, rows: &Links, count: usize) -> Result<Vec<usize>, AllocError>
    requires few { length rows.now < 2 ^ 32 }
    requires few_numbers { count < 2 ^ 32 }
    requires rows { HaveRising rows.now count }
    ensures long { IfOk result (λ counts. length counts.items ≡ count + 1) }
    ensures counted { IfOk result (λ counts. AreCounted (turned_from rows.now 0) counts.items) }
{
    let mut counts = vec![in alloc; 0usize; count + 1]?;
    let mut x = rows.len();
    while x > 0 {
        x -= 1;
        count_row(&mut counts, rows, x);
    }
    Ok(counts)
}

// Puts at each place the sum up to it. There is no memory for more than can be counted.
fn sum_up(counts: &mut [usize]) -> Result<(), AllocError>
    ensures { OnOk result (AreSums counts.old counts.new (length counts.old)) }
{
    let mut sum = 0usize;
    for n in 0..counts.len() {
        sum = sum.checked_add(counts[n]).ok_or(AllocError)?;
        counts[n] = sum;
    }
    Ok(())
}

// Of each number where its row ends, behind those of the numbers before it.
fn find_ends(alloc: Global, rows: &Links, count: usize) -> Result<Vec<usize>, AllocError>
    requires few { length rows.now < 2 ^ 32 }
    requires few_numbers { count < 2 ^ 32 }
    requires rows { HaveRising rows.now count }
    ensures long { IfOk result (λ ends. length ends.items ≡ count + 1) }
    ensures ends { IfOk result (λ ends. AreEnds (sizes_of rows.now) ends.items) }
{
    let mut counts = count_rows(alloc, rows, count)?;
    sum_up(&mut counts)?;
    Ok(counts)
}

// Puts x into the rows of the numbers that its row has, where those behind it are there.
fn place_row(starts: &mut [usize], targets: &mut [u32], rows: &Links, x: usize)
    requires few { length rows.now < 2 ^ 32 }
    requires there { x < length rows.now }
    requires rows { HaveRising rows.now (length starts.old) }
    requires placed { ArePlaced (sizes_of rows.now) (turned_from rows.now (x + 1)) starts.old targets.old }
    ensures long { length starts.new ≡ length starts.old }
    ensures placed { ArePlaced (sizes_of rows.now) (turned_from rows.now x) starts.new targets.new }
{
    for number in rows.row(x) {
        let start = starts[*number as usize] - 1;
        starts[*number as usize] = start;
        targets[start] = x as u32;
    }
}

/// Rows of numbers, turned round: each number has a row with the numbers of the rows that have it, rising.
///
/// The rows have to rise, and all numbers are below `count`, which is how many rows the result has. It goes over each row
/// twice, sorts nothing, and takes eight bytes a number and four for each place of a row. The only error is want of memory.
pub fn turn_rows(alloc: Global, rows: &Links, count: usize) -> Result<Links, AllocError>
    requires few { length rows.now < 2 ^ 32 }
    requires few_numbers { count < 2 ^ 32 }
    requires rows { HaveRising rows.now count }
    ensures { IfOk result (λ turned. AreTurned rows.now count turned) }
{
    let mut starts = find_ends(alloc, rows, count)?;
    let mut targets = vec![in alloc; 0u32; starts[count]]?;
    let mut x = rows.len();
    while x > 0 {
        x -= 1;
        place_row(&mut starts, &mut targets, rows, x);
    }
    Ok(Links::from_starts(starts, targets))
}
