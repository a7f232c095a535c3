//! Copies of names that may be missing.
ghost use Rattle.std.specs.Prelude.{◌≡◌, IfOk};

use jr_ast::Name;
use std::alloc::AllocError;

pub(crate) fn copy_maybe_name(name: &Option<Name>) -> Result<Option<Name>, AllocError>
    ensures { IfOk result (λ n. n ≡ name.now) }
{
    match name {
        None => Ok(None),
        Some(name) => Ok(Some(name.copy()?)),
    }
}
