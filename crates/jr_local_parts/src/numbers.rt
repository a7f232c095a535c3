//! What becomes of the numbers of a member's locals.
ghost use Rattle.std.specs.Prelude.{◌≡◌, ◌∷◌, ◌++◌, [], None, IfOk};
ghost use Rattle.jr_local_walks.specs.Mappings.{numbers_from};

use std::alloc::{AllocError, Global};

/// The numbers below this one, which stay. The only fault is want of memory.
pub fn kept_numbers(alloc: Global, count: u32) -> Result<Vec<Option<u32>>, AllocError>
    ensures { IfOk result (λ v. v.items ≡ numbers_from 0 count) }
{
    let mut numbers = Vec::new(alloc);
    for number in 0..count {
        numbers.push(Some(number))?;
    }
    Ok(numbers)
}

/// The same, and behind them a local that is gone. The only fault is want of memory.
pub fn with_gone(alloc: Global, count: u32) -> Result<Vec<Option<u32>>, AllocError>
    ensures { IfOk result (λ v. v.items ≡ numbers_from 0 count ++ None ∷ []) }
{
    let mut numbers = kept_numbers(alloc, count)?;
    numbers.push(None)?;
    Ok(numbers)
}
