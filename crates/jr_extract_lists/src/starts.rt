//! What is gathered in front of the statement, and the one loss of a type.
ghost use Rattle.std.specs.Prelude.{◌≡◌, ◌≤◌, ◌+◌, ◌∷◌, [], IfOk, length, option_to_list};
ghost use Rattle.jr_rewrite.specs.ChangeView.{change_of};
ghost use Rattle.jr_new_bodies.specs.OutputView.{gathered};
ghost use Rattle.jr_extract_lists.specs.Walked as pure;

use jr_new_bodies::Output;
use jr_rewrite::Change;
use std::alloc::{AllocError, Global};

/// Two counts together. There are never more references than a number counts.
fn sum(one: u64, other: u64) -> Result<u64, AllocError>
    ensures { IfOk result (λ n. n ≡ one + other) }
{
    match one.checked_add(other) {
        None => Err(AllocError),
        Some(all) => Ok(all),
    }
}

/// The change alone.
fn one_change(alloc: Global, put: Change) -> Result<Vec<Change>, AllocError>
    ensures { IfOk result (λ v. v.items ≡ put ∷ []) }
{
    let mut changes = Vec::new(alloc);
    changes.push(put)?;
    Ok(changes)
}

/// What is gathered in front of the statement: the declaration, with what its type and its
/// initializer respell, and what the initializer loses.
pub(crate) fn begin_list(
    alloc: Global,
    put: Change,
    respelled: u64,
    piece: Output,
) -> Result<Output, AllocError>
    ensures { IfOk result (λ out. gathered out ≡ pure.put_in_front
        (change_of put) respelled (gathered piece)) }
{
    let Output {
        changes: _,
        respelled: more,
        losses,
    } = piece;
    let all = sum(respelled, more)?;
    let changes = one_change(alloc, put)?;
    Ok(Output {
        changes,
        respelled: all,
        losses,
    })
}

/// The value, behind which the other is let go.
fn kept<T, G: Drop>(value: T, gone: G) -> T
    ensures { result ≡ value }
{
    drop(gone);
    value
}

/// The item of a list of at most one.
pub(crate) fn single<T: Drop>(items: Vec<T>) -> Option<T>
    requires { length items.items ≤ 1 }
    ensures { option_to_list result ≡ items.items }
{
    let mut rest = items;
    let last = rest.pop();
    kept(last, rest)
}
