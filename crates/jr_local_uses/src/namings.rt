//! Where a declared local is named behind its declaration.
ghost use Rattle.std.specs.Prelude.{◌≡◌, ◌<◌, ℕ, IfOk, Some, length, map, option_map, slice_get, ⊤};
ghost use Rattle.jr_ast.specs.View.{stmt_of, stmts_of};
ghost use Rattle.jr_table.specs.Decls as decls;
ghost use Rattle.jr_table.specs.KeyView.{local_key_of};
ghost use Rattle.jr_members.specs.PartView.{written_of};
ghost use Rattle.jr_local_search.specs.NamingView.{naming_of};
ghost use Rattle.jr_local_asked.specs.Declaring.{IsThere, members_of};
ghost use Rattle.jr_local_asked.specs.DeclaredView.{declared_of};
ghost use Rattle.jr_local_uses.specs.Heads as pure;
ghost use Rattle.jr_local_uses.specs.HeadView.{head_of};
ghost use Rattle.jr_local_uses.specs.LocalNamings.{AreGathered, AreNamings, declared_by};

use crate::places::{all_fit, local_places};
use jr_ast::{Expr, Stmt, StmtKind};
use jr_bind::View;
use jr_local_asked::AskedLocal;
use jr_local_marks::bodies_are_spelled;
use jr_local_moves::references_have_places;
use jr_local_names::names_are_bound;
use jr_local_reads::{bodies_begin_below, locals_have_their_names, ways_go_on};
use jr_local_search::{Naming, namings};
use jr_members::WrittenMember;
use jr_program::first_byte;
use jr_text::Span;
use jr_told_ways::one_way_has_a_span;
use std::alloc::{AllocError, Global};

/// The declaration of a local at the head of a list: how many bytes the local's name has, the
/// initializer, and the list behind it.
pub struct Head<'a> {
    pub size: u32,
    pub init: &'a Expr<Span>,
    pub rest: &'a [Stmt<Span>],
}

impl Copy for Head<'_> {}

impl Clone for Head<'_> {
    ghost is_clone = { λ x y. y ≡ x };

    ghost is_infallible = { λ _. ⊤ };

    fn clone(&self) -> Result<Self, AllocError> {
        Ok(*self)
    }
}

/// What the statement declares, with the list behind it.
#[tactic(auto, unfolding(jr_ast::specs::View::stmt_kind))]
fn head_in<'a>(of: &'a Stmt<Span>, rest: &'a [Stmt<Span>]) -> Option<Head<'a>>
    ensures { option_map head_of result ≡ pure.head_in (stmt_of of.now) (stmts_of rest.now) }
{
    match &of.kind {
        StmtKind::Local { name, init, .. } => Some(Head {
            size: name.mark.to.saturating_sub(name.mark.from),
            init,
            rest,
        }),
        StmtKind::Eval(_) => None,
        StmtKind::If(_, _, _) => None,
        StmtKind::While(_, _) => None,
        StmtKind::Return(_) => None,
        StmtKind::Block(_) => None,
        StmtKind::Sync(_, _) => None,
        StmtKind::Empty => None,
    }
}

/// The declaration at the head of a list, if one is there.
pub fn declaration_head<'a>(list: &'a [Stmt<Span>]) -> Option<Head<'a>>
    ensures { option_map head_of result ≡ pure.declaration_head (stmts_of list.now) }
{
    match list.split_first() {
        None => None,
        Some((of, rest)) => head_in(of, rest),
    }
}

/// The written member of the number.
pub fn written_at<'m, 'a>(
    members: &'m [WrittenMember<'a, Span>],
    number: u32,
) -> &'m WrittenMember<'a, Span>
    requires { number < length members.now }
    ensures { slice_get members.now number ≡ Some result.now }
{
    &members[number as usize]
}

/// The names of so many bytes in the list that begin at the places.
fn gathered(
    alloc: Global,
    places: Vec<u32>,
    size: u32,
    list: &[Stmt<Span>],
) -> Result<Vec<Naming>, AllocError>
    ensures { IfOk result
        (λ v. AreGathered places.items size (stmts_of list.now) (map naming_of v.items)) }
{
    all_fit(places.as_slice(), size)?;
    namings(alloc, places.as_slice(), size, list)
}

/// Where the local is named that a statement declares: in the list behind its declaration, nested
/// lists included (JLS 6.3), each with how it is used and the construct in the list that may leave
/// it out or come to it again, in text order. `members` are the written members of the program. The
/// only fault is want of memory.
pub fn local_namings<V: View<Span>>(
    alloc: Global,
    view: &V,
    members: &[WrittenMember<'_, Span>],
    asked: &AskedLocal<'_>,
) -> Result<Vec<Naming>, AllocError>
    requires members { map written_of members.now ≡ members_of (V.program view.now) }
    requires there { (file : ℕ) × IsThere (V.program view.now) file (local_key_of asked.now.key)
        (declared_of asked.now.declared) }
    ensures { (file : ℕ) → (h : IsThere (V.program view.now) file (local_key_of asked.now.key)
        (declared_of asked.now.declared))
        → IfOk result (λ v. AreNamings (declared_by h) (map naming_of v.items)) }
{
    names_are_bound();
    ways_go_on();
    bodies_begin_below();
    locals_have_their_names();
    bodies_are_spelled();
    references_have_places();
    one_way_has_a_span::<Span>();
    view.keeps_program();
    match declaration_head(asked.declared.list) {
        None => Ok(Vec::new(alloc)),
        Some(head) => {
            let written = written_at(members, asked.declared.member);
            let start = first_byte(&written.part);
            let bound = view.bound(asked.declared.member);
            let places = local_places(alloc, start, &asked.key, bound)?;
            gathered(alloc, places, head.size, head.rest)
        }
    }
}
