//! What becomes of the expression, of its statement and of those behind it: each is walked in a
//! place of its own, where the new local is in scope.
ghost use Rattle.std.specs.Prelude.{◌≡◌, IfOk, None, OnOk, length, map};
ghost use Rattle.jr_text.specs.declared.spans.Span as spans;
ghost use Rattle.jr_ast.specs.StatementTree as statement;
ghost use Rattle.jr_ast.specs.View.{stmt_of, stmts_of};
ghost use Rattle.jr_bind.specs.Programs.{Program};
ghost use Rattle.jr_new_words.specs.Mappings.{Renumbering as Numbers};
ghost use Rattle.jr_new_words.specs.MappingView.{made_of, renumbering_of};
ghost use Rattle.jr_new_words.specs.Scopes.{Makes};
ghost use Rattle.jr_new_bodies.specs.Known.{IsKnown, context_of, mapping_of};
ghost use Rattle.jr_new_bodies.specs.OutputView.{gathered};
ghost use Rattle.jr_new_bodies.specs.SpotView.{part_of};
ghost use Rattle.jr_extract_lists.specs.Targets.{IsTarget};
ghost use Rattle.jr_extract_lists.specs.Walked as pure;
ghost use Rattle.jr_extract_lists.specs.Walked.{
  AtStatement,
  BeginsFor,
  CanWalk,
  IsElement,
  IsListed,
  IsMade,
  IsMoved,
  IsPlaceOf,
  IsPlaced,
  Listed,
  PutsName,
  bare,
  from_there,
  in_initializer,
};

use crate::starts::{begin_list, single};
use crate::targets::Target;
use crate::texts::{declaration, name_text};
use crate::written_types::{WrittenType, written_type};
use jr_ast::{Param, Stmt};
use jr_local_changes::pieces_fit;
use jr_local_parts::{
    ElementPlace, begin_body, enter, forget_here, go_to_element, kept_numbers, path_to, with_gone,
};
use jr_local_premises::{selected_are_ready, types_are_written};
use jr_local_walks::extract_is_walked;
use jr_local_ways::{elements_hold_it, spans_have_no_base};
use jr_new_bodies::{
    Here, Output, PartSpot, Spots, new_output, next as number_behind, piece, stmt, stmts,
};
use jr_new_words::{Lost, MadeLocal, Renumbering};
use jr_text::Span;
use std::alloc::{AllocError, Global};

/// How tightly a name binds (JLS 15.8).
const PRIMARY: u32 = 10;

/// The statement's place, and how many locals are in scope there.
#[derive(Clone, Copy, Drop)]
pub struct StatementPlace {
    pub element: ElementPlace,
    pub depth: usize,
}

/// What becomes of the list, and the type's class, if that is lost.
#[derive(Drop)]
pub struct ListOutput {
    pub out: Output,
    pub lost: Option<Lost>,
}

/// What the walk over the statement takes besides: the numbers with the new local, and the spot of
/// the expression.
#[derive(Clone, Copy)]
struct Inside<'a> {
    numbers: &'a Renumbering<'a>,
    spots: &'a [PartSpot<'a>],
}

/// The numbers in front of the statement, those from it on, and the spot of the expression.
#[derive(Clone, Copy)]
struct Frames<'a> {
    outer: Renumbering<'a>,
    inner: Renumbering<'a>,
    spots: &'a [PartSpot<'a>],
}

fn made_local<'a>(of: &Target<'a>) -> MadeLocal<'a>
    ensures { made_of result ≡ pure.made_by of.now }
{
    MadeLocal {
        name: of.request.name,
        number: of.number,
        ty: of.ty,
    }
}

/// The first locals have these numbers, and the others those behind the new local.
fn renumbered<'a>(
    firsts: &'a [Option<u32>],
    next: u32,
    made: &'a [MadeLocal<'a>],
    depth: usize,
) -> Renumbering<'a>
    ensures { renumbering_of result ≡ record {
      firsts = firsts.now;
      next = next;
      made = map made_of made.now;
      depth = depth;
      gone = None;
    } }
{
    Renumbering {
        firsts,
        next,
        made,
        depth,
        gone: None,
    }
}

/// Those that are made come into scope, behind the locals that are there.
fn make<'a>(here: &mut Here<'a>, numbers: &'a Renumbering<'a>) -> Result<(), AllocError>
    requires known { IsKnown here.old }
    requires makes { Makes (mapping_of here.old).locals (renumbering_of numbers.now)
        (length (context_of here.old).locals) }
    ensures { IfOk result (λ _. IsMade here.old here.new (renumbering_of numbers.now)) }
{
    here.scopes.make(numbers)
}

// ---- the statement

fn statement_of<'a>(of: &Target<'a>) -> (&'a Stmt<Span>, &'a [Stmt<Span>])
    requires { pure.HasStatement of.now }
    ensures { stmts_of of.now.list.now ≡ statement.more (stmt_of result.0.now)
        (stmts_of result.1.now) }
{
    match of.list.split_first() {
        Some((first, rest)) => (first, rest),
        None => unreachable!(),
    }
}

/// How many parameters these are. More than numbers don't fit any memory.
fn count_params(params: &[Param<Span>]) -> Result<u32, AllocError>
    ensures { IfOk result (λ n. n ≡ length params.now) }
{
    match u32::try_from(params.len()) {
        Err(_) => Err(AllocError),
        Ok(count) => Ok(count),
    }
}

/// The first local that is no parameter.
fn first_local(of: &Target<'_>) -> Result<u32, AllocError>
    ensures { IfOk result (λ n. n ≡ pure.first_local of.now) }
{
    count_params(of.body.code.params)
}

fn go<'a>(here: &mut Here<'a>, of: &Target<'a>) -> Result<StatementPlace, AllocError>
    requires { IsKnown here.old }
    ensures { (p : Program spans.Span) → (x : IsTarget p of.now) → (r : Numbers)
        → BeginsFor r of.now here.old → IfOk result (IsPlaced x here.old here.new) }
{
    let next = first_local(of)?;
    let element = go_to_element(here, &of.body, of.path, next)?;
    Ok(StatementPlace {
        element,
        depth: here.scopes.len(),
    })
}

/// Where the statement stands.
pub fn find_statement(alloc: Global, of: &Target<'_>) -> Result<StatementPlace, AllocError>
    requires { CanWalk of.now }
    ensures { (p : Program spans.Span) → (x : IsTarget p of.now)
        → IfOk result (IsPlaceOf x) }
{
    let target = *of;
    let firsts = kept_numbers(alloc, of.number)?;
    let next = number_behind(of.number)?;
    let kept = firsts.as_slice();
    let numbers = renumbered(kept, next, &[], 0);
    let mut here = begin_body(alloc, &target.body, &numbers)?;
    let at = go(&mut here, &target);
    forget_here(here);
    at
}

// ---- the expression

fn walk_piece<'a>(
    alloc: Global,
    of: &Target<'a>,
    here: &mut Here<'a>,
    numbers: &'a Renumbering<'a>,
) -> Result<Output, AllocError>
    requires known { IsKnown here.old }
    requires walks { pure.WalksPiece of.now here.old (renumbering_of numbers.now) }
    ensures { (p : Program spans.Span) → (x : IsTarget p of.now)
        → BeginsFor (in_initializer x) of.now here.old
        → renumbering_of numbers.now ≡ in_initializer x
        → IfOk result (λ out. IsMoved x (gathered out)) }
{
    selected_are_ready();
    elements_hold_it::<Span>();
    spans_have_no_base();
    extract_is_walked();
    let at = go(here, of)?;
    make(here, numbers)?;
    let (statement, _) = statement_of(of);
    enter(here, at.element.next, statement)?;
    let mut out = new_output(alloc);
    piece(alloc, here, of.path, at.element.base, of.value, &mut out)?;
    Ok(out)
}

/// The same, from where the body begins.
fn piece_by<'a>(
    alloc: Global,
    of: &Target<'a>,
    frames: &'a Frames<'a>,
) -> Result<Output, AllocError>
    requires { pure.FramesPiece of.now (renumbering_of frames.now.outer)
        (renumbering_of frames.now.inner) }
    ensures { (p : Program spans.Span) → (x : IsTarget p of.now)
        → renumbering_of frames.now.outer ≡ bare (in_initializer x)
        → renumbering_of frames.now.inner ≡ in_initializer x
        → IfOk result (λ out. IsMoved x (gathered out)) }
{
    let mut here = begin_body(alloc, &of.body, &frames.outer)?;
    let out = walk_piece(alloc, of, &mut here, &frames.inner);
    forget_here(here);
    out
}

/// What becomes of the expression as the initializer of the new local: in scope are those in front
/// of the statement, and the new one. The only fault is want of memory.
pub fn piece_output(
    alloc: Global,
    of: &Target<'_>,
    at: &StatementPlace,
) -> Result<Output, AllocError>
    requires { pure.HasPlace of.now at.now }
    ensures { (p : Program spans.Span) → (x : IsTarget p of.now) → IsPlaceOf x at.now
        → IfOk result (λ out. IsMoved x (gathered out)) }
{
    let target = *of;
    let firsts = with_gone(alloc, of.number)?;
    let next = number_behind(of.number)?;
    let kept = firsts.as_slice();
    let made = [made_local(&target)];
    let inner = renumbered(kept, next, &made, at.depth);
    let outer = renumbered(kept, next, &[], 0);
    let frames = Frames {
        outer,
        inner,
        spots: &[],
    };
    piece_by(alloc, &target, &frames)
}

// ---- the list

/// Which expressions are rewritten in their own way from here on.
fn set_spots<'a>(here: &mut Here<'a>, spots: Spots<'a>)
    ensures { here.new ≡ pure.with_spots here.old spots.entry }
{
    here.spots = spots;
}

/// Adds what becomes of the statement, in which the name comes.
fn walk_first<'a>(
    alloc: Global,
    of: &Target<'a>,
    at: &ElementPlace,
    here: &mut Here<'a>,
    spots: &'a [PartSpot<'a>],
    out: &mut Output,
) -> Result<u32, AllocError>
    requires known { IsKnown here.old }
    requires walks { pure.WalksStatements of.now at.now here.old (map part_of spots.now) }
    ensures { (p : Program spans.Span) → (x : IsTarget p of.now)
        → AtStatement x (from_there x) here.old → IsElement x at.now
        → PutsName x (map part_of spots.now)
        → IfOk result (λ n. pure.PassesFirst x n here.old here.new (gathered out.old)
        (gathered out.new)) }
{
    selected_are_ready();
    extract_is_walked();
    let path = path_to(alloc, of.path, at.depth)?;
    let (first, _) = statement_of(of);
    set_spots(here, Spots::Parts(spots));
    stmt(alloc, here, &path, at.base, at.next, first, out)
}

/// Adds what becomes of the statements behind it.
fn walk_rest<'a>(
    alloc: Global,
    of: &Target<'a>,
    at: &ElementPlace,
    here: &mut Here<'a>,
    number: u32,
    out: &mut Output,
) -> Result<(), AllocError>
    requires known { IsKnown here.old }
    requires walks { pure.WalksRest of.now at.now here.old number }
    ensures { (p : Program spans.Span) → (x : IsTarget p of.now)
        → pure.AtRest x here.old number → IsElement x at.now
        → IfOk result (λ _. pure.GivesRest x (gathered out.old) (gathered out.new)) }
{
    selected_are_ready();
    extract_is_walked();
    let around = path_to(alloc, of.path, at.depth - 1)?;
    let step = number_behind(at.step)?;
    let (_, rest) = statement_of(of);
    set_spots(here, Spots::Nowhere);
    stmts(alloc, here, &around, step, at.base, number, rest, out)?;
    Ok(())
}

/// Adds what becomes of the statement, in which the name comes, and of those behind it.
fn walk_statements<'a>(
    alloc: Global,
    of: &Target<'a>,
    at: &ElementPlace,
    here: &mut Here<'a>,
    spots: &'a [PartSpot<'a>],
    out: &mut Output,
) -> Result<(), AllocError>
    requires known { IsKnown here.old }
    requires walks { pure.WalksStatements of.now at.now here.old (map part_of spots.now) }
    ensures { (p : Program spans.Span) → (x : IsTarget p of.now)
        → AtStatement x (from_there x) here.old → IsElement x at.now
        → PutsName x (map part_of spots.now)
        → IfOk result (λ _. IsListed x (gathered out.old) (gathered out.new)) }
{
    let number = walk_first(alloc, of, at, here, spots, out)?;
    walk_rest(alloc, of, at, here, number, out)
}

fn walk_list<'a>(
    alloc: Global,
    of: &Target<'a>,
    here: &mut Here<'a>,
    inside: Inside<'a>,
    piece: Output,
) -> Result<ListOutput, AllocError>
    requires known { IsKnown here.old }
    requires walks { pure.WalksList of.now here.old (renumbering_of inside.numbers.now)
        (map part_of inside.spots.now) (gathered piece) }
    ensures { (p : Program spans.Span) → (x : IsTarget p of.now)
        → BeginsFor (from_there x) of.now here.old
        → renumbering_of inside.entry.numbers.now ≡ from_there x
        → PutsName x (map part_of inside.entry.spots.now) → IsMoved x (gathered piece)
        → IfOk result (Listed x (gathered piece)) }
{
    selected_are_ready();
    types_are_written();
    pieces_fit();
    let at = go(here, of)?;
    make(here, inside.numbers)?;
    let ty = written_type(alloc, here, of.request.from, of.ty)?;
    let (statement, _) = statement_of(of);
    let changes = piece.changes.as_slice();
    let put = declaration(alloc, of, statement.mark.from, &ty, changes)?;
    let WrittenType {
        text: _,
        respelled,
        losses,
    } = ty;
    let mut out = begin_list(alloc, put, respelled, piece)?;
    walk_statements(alloc, of, &at.element, here, inside.spots, &mut out)?;
    Ok(ListOutput {
        out,
        lost: single(losses),
    })
}

/// The same, from where the body begins.
fn list_by<'a>(
    alloc: Global,
    of: &Target<'a>,
    frames: &'a Frames<'a>,
    piece: Output,
) -> Result<ListOutput, AllocError>
    requires { pure.FramesList of.now (renumbering_of frames.now.outer)
        (renumbering_of frames.now.inner) (map part_of frames.now.spots.now) (gathered piece) }
    ensures { (p : Program spans.Span) → (x : IsTarget p of.now)
        → renumbering_of frames.now.outer ≡ bare (from_there x)
        → renumbering_of frames.now.inner ≡ from_there x
        → PutsName x (map part_of frames.now.spots.now) → IsMoved x (gathered piece)
        → IfOk result (Listed x (gathered piece)) }
{
    let inside = Inside {
        numbers: &frames.inner,
        spots: frames.spots,
    };
    let mut here = begin_body(alloc, &of.body, &frames.outer)?;
    let listed = walk_list(alloc, of, &mut here, inside, piece);
    forget_here(here);
    listed
}

/// What becomes of the list from the statement on: the declaration is put in front of it, the name
/// takes the expression's place, and all else in it is spelled so that it means what it did. The
/// only fault is want of memory.
pub fn list_output(
    alloc: Global,
    of: &Target<'_>,
    at: &StatementPlace,
    piece: Output,
) -> Result<ListOutput, AllocError>
    requires { pure.HasPiece of.now at.now (gathered piece) }
    ensures { (p : Program spans.Span) → (x : IsTarget p of.now) → IsPlaceOf x at.now
        → IsMoved x (gathered piece) → IfOk result (Listed x (gathered piece)) }
{
    let target = *of;
    let firsts = kept_numbers(alloc, of.number)?;
    let next = number_behind(of.number)?;
    let made = [made_local(&target)];
    let text = name_text(alloc, of)?;
    let bytes = text.as_str();
    let spots = [PartSpot {
        at: of.value.mark,
        level: PRIMARY,
        bare: bytes,
        grouped: bytes,
        respelled: 0,
    }];
    let kept = firsts.as_slice();
    let inner = renumbered(kept, next, &made, at.depth);
    let outer = renumbered(kept, next, &[], 0);
    let frames = Frames {
        outer,
        inner,
        spots: &spots,
    };
    list_by(alloc, &target, &frames, piece)
}
