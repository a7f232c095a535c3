//! Where a local is named in a list of statements.
ghost use Rattle.std.specs.Prelude.{
  ◌≡◌,
  ◌++◌,
  IfOk,
  MatchOption,
  OnOk,
  map,
  option_map,
};
ghost use Rattle.jr_ast.specs.View.{expr_of, stmts_of};
ghost use Rattle.jr_piece_search.specs.StatementView.{found_of};
ghost use Rattle.jr_piece_search.specs.StepView.{use_of};
ghost use Rattle.jr_local_search.specs.Namings as pure;
ghost use Rattle.jr_local_search.specs.Namings.{AreNamings, IsOnlyRead};
ghost use Rattle.jr_local_search.specs.NamingView.{
  AddsNaming,
  IsNamedAt,
  all_read_at,
  is_name,
  is_read_elsewhere,
  listed,
  named_in,
  naming_of,
};

use jr_ast::{Expr, ExprKind, Stmt};
use jr_piece_search::{Found, Usage, find};
use jr_pieces::spans_tell_ways;
use jr_text::Span;
use std::alloc::{AllocError, Global};

/// A name in a list of statements: its span, how it is used, and the first byte of the innermost
/// construct within the list that may leave it out, or come to it again.
#[derive(Drop)]
pub struct Naming {
    pub span: Span,
    pub usage: Usage,
    pub bar: Option<u32>,
}

/// Whether the expression is a name that stands alone.
#[tactic(auto, unfolding(jr_ast::specs::View::expr_kind))]
fn is_name(of: &Expr<Span>) -> bool
    ensures { result ≡ is_name (expr_of of.now) }
{
    match &of.kind {
        ExprKind::Simple(_) => true,
        ExprKind::Int(_) => false,
        ExprKind::Bool(_) => false,
        ExprKind::Null => false,
        ExprKind::Text(_) => false,
        ExprKind::Field(_, _) => false,
        ExprKind::SuperField(_) => false,
        ExprKind::This => false,
        ExprKind::ClassLit(_) => false,
        ExprKind::Call(_, _, _) => false,
        ExprKind::SuperCall(_, _) => false,
        ExprKind::New(_, _) => false,
        ExprKind::Paren(_) => false,
        ExprKind::Cast(_, _) => false,
        ExprKind::Unary(_, _) => false,
        ExprKind::Bump(_, _) => false,
        ExprKind::Binary(_, _, _) => false,
        ExprKind::Assign(_, _) => false,
        ExprKind::Compound(_, _, _) => false,
    }
}

/// What is found, where it is a name.
fn as_naming(span: Span, found: Option<Found<'_>>) -> Option<Naming>
    ensures { option_map naming_of result ≡ named_in span (option_map found_of found.entry) }
{
    match found {
        None => None,
        Some(found) => {
            if is_name(found.value) {
                Some(Naming {
                    span,
                    usage: found.usage,
                    bar: found.bars.outer,
                })
            } else {
                None
            }
        }
    }
}

/// The name of the span in a list, if one is there.
fn naming_in(alloc: Global, span: Span, list: &[Stmt<Span>]) -> Result<Option<Naming>, AllocError>
    ensures { IfOk result (λ o. IsNamedAt span (stmts_of list.now) (option_map naming_of o)) }
{
    spans_tell_ways::<Span>();
    let mut path = Vec::new(alloc);
    let found = find(&span, 0, list, &mut path)?;
    Ok(as_naming(span, found))
}

/// Puts the name of so many bytes that begins at the byte, if one is there.
fn add_naming(
    alloc: Global,
    at: u32,
    size: u32,
    list: &[Stmt<Span>],
    namings: &mut Vec<Naming>,
) -> Result<(), AllocError>
    ensures { OnOk result (AddsNaming at size (stmts_of list.now)
        (map naming_of namings.old.items) (map naming_of namings.new.items)) }
{
    let room = u32::MAX - at;
    if size > room {
        return Ok(());
    }
    let span = Span {
        from: at,
        to: at + size,
    };
    let naming = naming_in(alloc, span, list)?;
    put_naming(naming, namings)
}

fn put_naming(naming: Option<Naming>, namings: &mut Vec<Naming>) -> Result<(), AllocError>
    ensures { OnOk result (map naming_of namings.new.items
        ≡ map naming_of namings.old.items ++ listed (option_map naming_of naming)) }
{
    match naming {
        None => Ok(()),
        Some(naming) => {
            namings.push(naming)?;
            Ok(())
        }
    }
}

/// The names in a list of statements that begin at one of the places, which are bytes of the file,
/// and have so many bytes (JLS 6.5.6.1), in the order of the places, each with how it is used and
/// what bars it. With the places of a local's references and the length of its name these are where
/// the local is named in the list behind its declaration. The only fault is want of memory.
pub fn namings(
    alloc: Global,
    places: &[u32],
    size: u32,
    list: &[Stmt<Span>],
) -> Result<Vec<Naming>, AllocError>
    ensures { IfOk result (λ v. AreNamings places.now size (stmts_of list.now)
        (map naming_of v.items)) }
{
    let mut namings = Vec::new(alloc);
    for at in places {
        add_naming(alloc, *at, size, list, &mut namings)?;
    }
    Ok(namings)
}

/// Whether what is used so is read: `=` alone doesn't read what it assigns (JLS 15.26.1).
fn is_read(usage: Usage) -> bool
    ensures { result ≡ pure.is_read (use_of usage) }
{
    match usage {
        Usage::Valued => true,
        Usage::Assigned => false,
        Usage::Changed => true,
        Usage::Stated => true,
    }
}

/// Whether what is used so is assigned (JLS 15.14.2, 15.15.1, 15.26).
fn is_target(usage: Usage) -> bool
    ensures { result ≡ pure.is_target (use_of usage) }
{
    match usage {
        Usage::Valued => false,
        Usage::Assigned => true,
        Usage::Changed => true,
        Usage::Stated => false,
    }
}

/// The first read.
fn first_read(namings: &[Naming]) -> Option<&Naming>
    ensures { option_map (λ x. naming_of x.now) result
        ≡ pure.first_read (map naming_of namings.now) }
{
    for naming in namings {
        if is_read(naming.usage) {
            return Some(naming);
        }
    }
    None
}

/// Whether it is a read that begins elsewhere.
fn is_read_elsewhere(at: u32, naming: &Naming) -> bool
    ensures { result ≡ is_read_elsewhere at (naming_of naming.now) }
{
    is_read(naming.usage) & (naming.span.from != at)
}

/// Whether all reads begin at the byte.
fn all_read_at(at: u32, namings: &[Naming]) -> bool
    ensures { result ≡ all_read_at at (map naming_of namings.now) }
{
    for naming in namings {
        if is_read_elsewhere(at, naming) {
            return false;
        }
    }
    true
}

/// The one read among names, if there is just one; two at one byte are one.
pub fn only_read(namings: &[Naming]) -> Option<&Naming>
    ensures { MatchOption result
        ((x : pure.Naming) → IsOnlyRead (map naming_of namings.now) x → ⊥)
        (λ x. IsOnlyRead (map naming_of namings.now) (naming_of x.now)) }
{
    match first_read(namings) {
        None => None,
        Some(first) => {
            if all_read_at(first.span.from, namings) {
                Some(first)
            } else {
                None
            }
        }
    }
}

/// The first of names that `=`, `op=`, `++` or `--` assigns.
pub fn first_target(namings: &[Naming]) -> Option<&Naming>
    ensures { option_map (λ x. naming_of x.now) result
        ≡ pure.first_target (map naming_of namings.now) }
{
    for naming in namings {
        if is_target(naming.usage) {
            return Some(naming);
        }
    }
    None
}
