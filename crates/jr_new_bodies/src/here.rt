//! Places in a member.
ghost use Rattle.std.specs.Prelude.{◌≡◌, ◌+◌, ◌++◌, ◌∷◌, [], IfOk};

use crate::spots::Spots;
use jr_ast::Path;
use jr_bind::Bound;
use jr_new_words::Scopes;
use std::alloc::{AllocError, Global};

/// What is known at a place: for spellings, and by binding of the member, which begins at `from`;
/// and which expressions are rewritten in their own way.
#[derive(Drop)]
pub struct Here<'a> {
    pub scopes: Scopes<'a>,
    pub bound: &'a Bound,
    pub from: u32,
    pub spots: Spots<'a>,
}

/// How an expression stands: as a value, before a dot, or as a whole statement.
#[derive(Clone, Copy, Drop)]
pub(crate) enum Role {
    Value,
    Left,
    Statement,
}

/// Most paths have no more steps.
const FEW_STEPS: usize = 8;

/// The path to a part of the node to which a path leads.
pub(crate) fn below(alloc: Global, path: &Path, step: u32) -> Result<Path, AllocError>
    ensures { IfOk result (λ p. p.steps.items ≡ path.now.steps.items ++ step ∷ []) }
{
    let mut steps = Vec::with_capacity(alloc, FEW_STEPS)?;
    steps.extend_from_slice(path.steps.as_slice())?;
    steps.push(step)?;
    Ok(Path { steps })
}

/// The number behind this one. More parts than numbers don't fit any memory.
pub fn next(number: u32) -> Result<u32, AllocError>
    ensures { IfOk result (λ n. n ≡ number + 1) }
{
    match number.checked_add(1) {
        None => Err(AllocError),
        Some(next) => Ok(next),
    }
}
