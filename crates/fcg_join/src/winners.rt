//! Winners by the numbers of names.
ghost use Rattle.std.specs.Prelude.{◌≡◌, ◌<◌, All, IfOk};
ghost use Rattle.fcg_join.specs.Winners.{first_marks};

use std::alloc::{AllocError, Global};

/// A mark for each number, which is set where no earlier one is the same. The numbers are below the count.
///
/// It goes over the numbers once. The only error is want of memory.
pub fn mark_firsts(alloc: Global, numbers: &[u32], count: usize) -> Result<Vec<bool>, AllocError>
    requires { All (λ n. n < count) numbers.now }
    ensures { IfOk result (λ marks. marks.items ≡ first_marks numbers.now) }
{
    let mut seen = vec![in alloc; false; count]?;
    let mut marks = Vec::with_capacity(alloc, numbers.len())?;
    for number in numbers {
        let first = !seen[*number as usize];
        seen[*number as usize] = true;
        marks.push(first)?;
    }
    Ok(marks)
}
