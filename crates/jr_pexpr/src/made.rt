//! What was made, or want of memory.
ghost use Rattle.std.specs.Prelude.{◌≡◌, IfOk};

use jr_ast::{Expr, TypeRef};
use jr_text::Span;
use std::alloc::{AllocError, Global};

/// What a call makes that may want memory.
pub(crate) type Made<T> = Result<T, AllocError>;

/// In a box, at this type alone: at any type, each call of it would cost the check more.
pub(crate) fn in_box(alloc: Global, expr: Expr<Span>) -> Made<Box<Expr<Span>>>
    ensures { IfOk result (λ made. made.value ≡ expr) }
{
    Ok(Box::new(alloc, expr)?)
}

/// The same of a type.
pub(crate) fn type_in_box(alloc: Global, ty: TypeRef<Span>) -> Made<Box<TypeRef<Span>>>
    ensures { IfOk result (λ made. made.value ≡ ty) }
{
    Ok(Box::new(alloc, ty)?)
}
