//! Whether an expression of a body only reads locals.
ghost use Rattle.std.specs.Prelude.{◌≡◌, IfOk};
ghost use Rattle.jr_text.specs.declared.spans.Span as spans;
ghost use Rattle.jr_ast.specs.MemberTree as syntax;
ghost use Rattle.jr_ast.specs.View.{expr_of, member_of, stmts_of};
ghost use Rattle.jr_table.specs.Errors as errors;
ghost use Rattle.jr_members.specs.PartView.{part_of};
ghost use Rattle.jr_bind.specs.Programs.{Program};
ghost use Rattle.jr_bodies.specs.CodeView.{code_of as seen};
ghost use Rattle.jr_local_uses.specs.Paths.{IsPathOf};
ghost use Rattle.jr_local_uses.specs.PlainValues.{HasValue, TellsPlain};

use jr_ast::{Expr, Member, Path};
use jr_bind::Bound;
use jr_bodies::{Code, bodies_are_nested};
use jr_effect::is_plain;
use jr_local_footprints::{footprints_are_of_body, own_flags_tell, tests_are_there};
use jr_member_graphs::own_flags;
use jr_members::{PartRef, members_are_written};
use jr_piece_search::{find, none_has_the_span};
use jr_piece_sites::footprint;
use jr_table::Table;
use jr_text::Span;
use jr_told_ways::one_way_has_a_span;
use std::alloc::{AllocError, Global};

/// The member that a part is, which has code.
pub fn member_in<'a>(part: &PartRef<'a, Span>) -> &'a Member<Span>
    requires { (m : syntax.Member spans.Span) × (part_of part.now ≡ errors.member_part m) }
    ensures { part_of part.now ≡ errors.member_part (member_of result.now) }
{
    match part {
        PartRef::Member(member) => *member,
        PartRef::Head(_) => unreachable!(),
    }
}

/// The path, from the member, of the expression of a body that has the span: in a body with nested
/// spans there is one. The only fault is want of memory.
pub fn path_of(alloc: Global, code: &Code<'_>, span: &Span) -> Result<Path, AllocError>
    ensures { IfOk result (λ p. IsPathOf (stmts_of code.now.list.now) code.now.front span.now
        p.steps.items) }
{
    none_has_the_span();
    one_way_has_a_span::<Span>();
    let mut steps = Vec::new(alloc);
    let found = find(span, code.front, code.list, &mut steps)?;
    drop(found);
    Ok(Path { steps })
}

/// Whether the expression of a member's body only reads locals. The only fault is want of memory.
pub fn reads_alone(
    alloc: Global,
    table: &Table,
    bound: &Bound,
    member: &Member<Span>,
    code: &Code<'_>,
    value: &Expr<Span>,
) -> Result<bool, AllocError>
    requires { (p : Program spans.Span) × HasValue p bound.now (member_of member.now)
        (seen code.now) (expr_of value.now) }
    ensures { (p : Program spans.Span) → p.rows ≡ table.now → (x : HasValue p bound.now
        (member_of member.now) (seen code.now) (expr_of value.now))
        → IfOk result (λ q. TellsPlain p x q) }
{
    bodies_are_nested();
    members_are_written::<Span>();
    own_flags_tell();
    tests_are_there();
    footprints_are_of_body();
    let path = path_of(alloc, code, &value.mark)?;
    let flags = own_flags(alloc, table, member, 0, bound)?;
    let never_null = flags.as_slice();
    let sites = footprint(alloc, table, member, 0, &path, bound, never_null)?;
    let all = sites.as_slice();
    Ok(is_plain(all))
}
