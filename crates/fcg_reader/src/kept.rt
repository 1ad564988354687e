//! What is kept by numbers, for some of them.
ghost use Rattle.std.specs.Prelude.{◌≡◌, ℕ, None, IfOk, option_copied, slice_index_or};
ghost use Rattle.fcg_reader.specs.Internal.Kept.{IsKept};

use std::alloc::{AllocError, Global};

/// So many numbers, for which nothing is kept.
pub fn nothing_kept<T: Drop>(alloc: Global, count: usize) -> Result<Vec<Option<T>>, AllocError>
    ensures { IfOk result (λ kept. (i : ℕ) → slice_index_or kept.items i None ≡ None) }
{
    let mut kept = Vec::with_capacity(alloc, count)?;
    for _ in 0..count {
        kept.push(None)?;
    }
    Ok(kept)
}

/// What is kept for a number.
pub fn find_kept<T>(kept: &[Option<T>], number: u16) -> Option<&T>
    ensures { option_copied result ≡ slice_index_or kept.now number None }
{
    match kept.get(usize::from(number)) {
        Some(Some(value)) => Some(value),
        _ => None,
    }
}

/// Keeps a value for a number, where there is a place for it.
pub fn keep<T: Drop>(kept: &mut Vec<Option<T>>, number: u16, value: T)
    ensures { IsKept number value kept.old.items kept.new.items }
{
    if let Some(slot) = kept.get_mut(usize::from(number)) {
        *slot = Some(value);
    }
}
