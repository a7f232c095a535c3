//! What kinds of dependences weigh.
ghost use Rattle.std.specs.Prelude.{◌≡◌, ◌+◌, IfOk, IfSome};
ghost use Rattle.jr_dependences.specs.Kinds.{one_weight, all_weights};

use crate::kind_names::kind_name;
use crate::pairs::Kinds;
use jr_sync::DepKind;
use std::alloc::AllocError;

/// Both together, if 64 bits hold it.
#[inline(always)]
pub(crate) fn sum(one: u64, other: u64) -> Option<u64>
    ensures { IfSome result (λ n. n ≡ one + other) }
{
    one.checked_add(other)
}

/// Both together. Where 64 bits don't hold it the answer is want of memory.
pub(crate) fn added(one: u64, other: u64) -> Result<u64, AllocError>
    ensures { IfOk result (λ n. n ≡ one + other) }
{
    match sum(one, other) {
        None => Err(AllocError),
        Some(both) => Ok(both),
    }
}

/// Adds the name of a kind and so much more, if a dependence holds.
#[inline(always)]
fn add_kind(total: u64, holds: bool, kind: DepKind, more: u64) -> Option<u64>
    ensures { IfSome result (λ n. n ≡ total + one_weight holds kind more) }
{
    if !holds {
        return Some(total);
    }
    let weight = sum(more, kind_name(kind).len() as u64)?;
    sum(total, weight)
}

/// Adds what the dependences of one site on another weigh.
#[inline(always)]
pub(crate) fn add_kinds(total: u64, kinds: Kinds, more: u64) -> Option<u64>
    ensures { IfSome result (λ n. n ≡ total + all_weights kinds more) }
{
    let total = add_kind(total, kinds.order, DepKind::Order, more)?;
    let total = add_kind(total, kinds.field, DepKind::Field, more)?;
    let total = add_kind(total, kinds.sync, DepKind::Sync, more)?;
    let total = add_kind(total, kinds.flow, DepKind::Flow, more)?;
    let total = add_kind(total, kinds.anti, DepKind::Anti, more)?;
    add_kind(total, kinds.output, DepKind::Output, more)
}
