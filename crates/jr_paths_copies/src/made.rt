//! What was made, or want of memory.
ghost use Rattle.std.specs.Prelude.{◌≡◌, Ok, ◌++◌, ◌∷◌, []};
ghost use Rattle.std.specs.Result.{IfOk, IsOkAnd};

use std::alloc::AllocError;

/// What a call makes that may want memory.
pub(crate) type Made<T> = Result<T, AllocError>;

/// Both of what was made.
pub(crate) fn both<X: Drop, Y: Drop>(one: Made<X>, other: Made<Y>) -> Made<(X, Y)>
    ensures { IfOk result (λ p. (one ≡ Ok p.0) × (other ≡ Ok p.1)) }
{
    match one {
        Ok(one) => match other {
            Ok(other) => Ok((one, other)),
            Err(error) => {
                drop(one);
                Err(error)
            }
        },
        Err(error) => {
            drop(other);
            Err(error)
        }
    }
}

/// The row with what was made at its end.
pub(crate) fn push_made<T: Drop>(row: &mut Vec<T>, made: Made<Box<T>>) -> Made<()>
    ensures { IfOk result (λ _. IsOkAnd made (λ x. row.new.items ≡ row.old.items ++ x.value ∷ [])) }
{
    row.push(Box::into_inner(made?))?;
    Ok(())
}
