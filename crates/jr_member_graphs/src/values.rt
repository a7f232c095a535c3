//! Which values can't be null.
ghost use Rattle.std.specs.Prelude.{◌≡◌, ◌↔◌, ℕ, IsTrue, List};
ghost use Rattle.jr_ast.specs.View.{expr_of, member_of};
ghost use Rattle.jr_bind_expr.specs.Fits.{FitsExp};
ghost use Rattle.jr_cfg.specs.MemberRoutes.{FitsSites};
ghost use Rattle.jr_expr_sites.specs.KnownFacts.{Others, known_of};
ghost use Rattle.jr_expr_sites.specs.Routes.{begins_by, spots};
ghost use Rattle.jr_member_graphs.specs.MemberLocals.{NeverNullIn};
ghost use Rattle.jr_member_graphs.specs.NeverNullRuns.{GivesNoNull};
ghost use Rattle.jr_member_graphs.specs.OwnFlags.{own, own_flags, spotted};

use jr_ast::{Expr, Member};
use jr_expr_sites::{Here, is_never_null};
use jr_table::{Facts, Table};
use jr_text::Mark;

/// Whether the value of an expression in a member can't be null: it is `this`, `new`, a string, a
/// class literal, a local that is never assigned and begins with such a value, or one of these in
/// parentheses. In no run of the member, on a receiver and arguments that fit, is it null then.
///
/// The member's parent begins at the byte `base`, the expression's at the byte `at` of the file.
/// `flags` are those that [`own_flags`](crate::own_flags) tells of the member's locals. No memory is
/// taken.
pub fn never_null<A: Mark, F: Facts>(
    table: &Table,
    member: &Member<A>,
    base: u32,
    facts: &F,
    flags: &[bool],
    at: u32,
    of: &Expr<A>,
) -> bool
    requires fits { FitsSites A.span_from A.fits_at base (member_of member.now) }
    requires fits_value { FitsExp (begins_by A.span_from) A.fits_at at (expr_of of.now) }
    requires own { flags.now ≡ own_flags A.span_from table.now (F.key facts.now)
        (F.decls facts.now) (F.types facts.now) base (member_of member.now) }
    ensures exact { (o : Others) (path : List ℕ) → IsTrue result ↔ NeverNullIn
        (known_of (own A.span_from table.now (F.key facts.now) (F.decls facts.now)
        (F.types facts.now) base (member_of member.now)) o)
        (spotted A.span_from base (member_of member.now))
        (spots A.span_from path at (expr_of of.now)) }
    ensures runs { IsTrue result → (path : List ℕ) → GivesNoNull A.span_from base
        (own A.span_from table.now (F.key facts.now) (F.decls facts.now) (F.types facts.now) base
        (member_of member.now)) (member_of member.now)
        (spots A.span_from path at (expr_of of.now)) }
{
    let here = Here {
        table,
        facts,
        member: facts.member(),
        start: member.mark.span(base).from,
        never_null: flags,
    };
    is_never_null(&here, at, of)
}
