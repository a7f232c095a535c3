//! The walk over a member (JLS 8.3, 8.4, 8.8).
ghost use Rattle.std.specs.Prelude.{◌<◌, ℕ, length, IfOk};
ghost use Rattle.jr_ast.specs.View.{member_of};
ghost use Rattle.jr_new_bodies.specs.OutputView.{gathered};
ghost use Rattle.jr_new_files.specs.Walking.{key_of, rows_of, mapping_of, CanWalk};
ghost use Rattle.jr_new_files.specs.Ready.{MemberReady, HasSuperAt};
ghost use Rattle.jr_new_files.specs.PartEffects.{MemberGathers};

use crate::beginnings::Walked;
use crate::ctors::ctor;
use crate::fields::field;
use crate::methods::method;
use jr_ast::{Member, MemberKind};
use jr_bind::View;
use jr_new_bodies::Output;
use jr_text::Span;
use std::alloc::{AllocError, Global};

/// A field, method or constructor of a file; a member class is a part of its own.
pub(crate) fn member<'a, V: View<Span>>(
    alloc: Global,
    view: &V,
    file: u32,
    of: &Walked<'a>,
    member: &'a Member<Span>,
    out: &mut Output,
) -> Result<(), AllocError>
    requires walked { CanWalk of.now }
    requires file { file < length (V.program view.now).files }
    requires ready { MemberReady (rows_of of.now) of.now.bound.now of.now.from (key_of of.now)
        (member_of member.now) }
    requires stands { HasSuperAt (V.program view.now) file (member_of member.now)
        ((V.program view.now).super_at (key_of of.now)) }
    ensures { IfOk result (λ _. (base : ℕ) → MemberGathers (V.program view.now) (rows_of of.now)
        (mapping_of of.now) (key_of of.now) base (member_of member.now) (gathered out.old)
        (gathered out.new)) }
{
    let span = member.mark;
    match &member.kind {
        MemberKind::Field {
            modifiers,
            ty,
            name,
            init,
        } => field(alloc, of, span.from, modifiers, ty, name, init, out),
        MemberKind::Method {
            modifiers,
            ret,
            name,
            params,
            body,
        } => method(
            alloc, of, span.from, modifiers, ret, name, params, body, out,
        ),
        MemberKind::Ctor {
            modifiers,
            name,
            params,
            parent_args,
            body,
        } => ctor(
            alloc,
            view,
            file,
            span,
            of,
            modifiers,
            name,
            params,
            parent_args,
            body,
            out,
        ),
        MemberKind::Inner(_) => Ok(()),
    }
}
