//! The walk over a field, method or constructor: its notes and its tree of types.
ghost use Rattle.std.specs.Prelude.{◌≡◌, ◌++◌, Some, None, true, false, length, IfOk, map};
ghost use Rattle.std.specs.Prelude.{option_map};
ghost use Rattle.jr_ast.specs.View.{word_of, modifier_of, type_of, param_of, expr_of, args_of};
ghost use Rattle.jr_ast.specs.View.{stmts_of, member_of};
ghost use Rattle.jr_table.specs.KeyView.{member_key_of};
ghost use Rattle.jr_table.specs.Entries as entries;
ghost use Rattle.jr_table.specs.Entries.{number_of};
ghost use Rattle.jr_table.specs.HeadRules.{is_static_member, plain, with_parameters};
ghost use Rattle.jr_table.specs.Errors.{member_part};
ghost use Rattle.jr_table.specs.Walks as walks;
ghost use Rattle.jr_expr_types.specs.Trees.{none, node, flat};
ghost use Rattle.jr_expr_types.specs.TypedTrees.{put_leaves, put_args, put_maybe, put_stmts, part_tree};
ghost use Rattle.jr_bind_expr.specs.Places.{decl_of};
ghost use Rattle.jr_bind_expr.specs.Fits.{FitsType, FitsMaybe, FitsStmts};
ghost use Rattle.jr_bind_parts.specs.DeclaredTypes.{FitsMaybeType, FitsParams};
ghost use Rattle.jr_bind_expr.specs.Logs.{notes_of, Adds};
ghost use Rattle.jr_bind_parts.specs.PartFits.{FitsMaybeArgs, FitsMember};
ghost use Rattle.jr_bind_parts.specs.PartNotes as pure;
ghost use Rattle.jr_bind_parts.specs.TypedFlow.{named_count, args_count};

use crate::declared::{put_params, put_type};
use crate::fronts::{named_parts, put_front};
use crate::initializers::put_initializer;
use crate::member_places::{make_instance, place_with, plain_place};
use crate::methods::put_declared_method;
use crate::parameters::count;
use crate::statements::stmts;
use crate::stmt_nodes::maybe_parts;
use crate::supers::put_super;
use jr_ast::{Expr, Ident, Member, MemberKind, ModWord, Modifier, Param, Stmt, TypeRef};
use jr_bind_expr::{Note, more_parts, put_leaf};
use jr_expr_types::Types;
use jr_table::{MemberKey, Table};
use jr_text::Mark;
use std::alloc::{AllocError, Global};

fn is_static_word(word: ModWord) -> bool
    ensures { result ≡ entries.is_static_word word }
{
    match word {
        ModWord::Static => true,
        _ => false,
    }
}

/// Whether a member is static.
pub fn is_static_member<A: Mark>(modifiers: &[Modifier<A>]) -> bool
    ensures { result ≡ is_static_member (λ m b. (A.span_from m b).from)
        (map modifier_of modifiers.now) }
{
    for modifier in modifiers {
        if is_static_word(modifier.word) {
            return true;
        }
    }
    false
}

/// A field (JLS 8.3).
fn note_field<'a, A: Mark>(
    alloc: Global,
    table: &Table,
    key: &'a MemberKey,
    row: u32,
    at: u32,
    is_static: bool,
    modifiers: usize,
    ty: &TypeRef<A>,
    init: &Option<Expr<A>>,
    log: &mut Vec<Note>,
    types: &mut Types,
) -> Result<(), AllocError>
    requires row { number_of table.now (decl_of (member_key_of key.now)) ≡ Some row }
    requires fits { FitsType (λ m b. (A.span_from m b).from) A.fits_at at (type_of ty.now) }
    requires fits_init { FitsMaybe (λ m b. (A.span_from m b).from) A.fits_at at
        (option_map expr_of init.now) }
    ensures notes { IfOk result (λ _. Adds
        (notes_of table.now (member_key_of key.now) log.old.items)
        (pure.field_notes (λ m b. (A.span_from m b).from) table.now (member_key_of key.now) at
        is_static (type_of ty.now) (option_map expr_of init.now))
        (notes_of table.now (member_key_of key.now) log.new.items)) }
    ensures slots { IfOk result (λ _. types.new ≡ types.old ++ flat (node None
        (put_maybe table.now (plain (member_key_of key.now) is_static)
        (put_leaves 2 (put_leaves modifiers none)) (option_map expr_of init.now)))) }
{
    let before = types.count();
    let first = put_front(modifiers, 2, 0, types)?;
    let parts = more_parts(first, maybe_parts(init))?;
    let place = plain_place(alloc, table, key, row, is_static);
    put_type(table, place.class, at, ty, log)?;
    put_initializer(alloc, table, &place, at, init, log, types)?;
    types.close(before, parts, None)
}

/// A method (JLS 8.4).
fn note_method<'a, A: Mark>(
    alloc: Global,
    table: &Table,
    key: &'a MemberKey,
    row: u32,
    at: u32,
    is_static: bool,
    modifiers: usize,
    ret: &Option<TypeRef<A>>,
    name: &Ident<A>,
    params: &'a [Param<A>],
    body: &'a [Stmt<A>],
    log: &mut Vec<Note>,
    types: &mut Types,
) -> Result<(), AllocError>
    requires row { number_of table.now (decl_of (member_key_of key.now)) ≡ Some row }
    requires fits { FitsMaybeType (λ m b. (A.span_from m b).from) A.fits_at at
        (option_map type_of ret.now) }
    requires fits_name { A.fits_at name.now.mark at }
    requires fits_params { FitsParams (λ m b. (A.span_from m b).from) A.fits_at at
        (map param_of params.now) }
    requires fits_body { FitsStmts (λ m b. (A.span_from m b).from) A.fits_at at
        (stmts_of body.now) }
    ensures notes { IfOk result (λ _. Adds
        (notes_of table.now (member_key_of key.now) log.old.items)
        (pure.method_notes (λ m b. (A.span_from m b).from) table.now (member_key_of key.now) at
        is_static (option_map type_of ret.now) (word_of name.now) (map param_of params.now)
        (stmts_of body.now)) (notes_of table.now (member_key_of key.now) log.new.items)) }
    ensures slots { IfOk result (λ _. types.new ≡ types.old ++ flat (node None
        (put_stmts table.now
        (put_leaves (length params.now)
        (put_leaves (named_count (option_map type_of ret.now)) (put_leaves modifiers none)))
        (length params.now)
        (with_parameters (member_key_of key.now) is_static (map param_of params.now))
        (stmts_of body.now)))) }
{
    let before = types.count();
    let number = count(params)?;
    let first = put_front(modifiers, named_parts(ret), params.len(), types)?;
    let parts = more_parts(first, body.len())?;
    let mut place = place_with(alloc, table, key, row, is_static, params)?;
    let behind = stmts(alloc, table, &mut place, at, number, body, log, types)?;
    types.close(before, parts, None)?;
    put_declared_method(table, &place, at, ret, name, params, behind.completes, log)
}

/// How many parts the arguments of a written `super(..)` are.
fn super_parts<A>(args: &Option<Vec<Expr<A>>>) -> usize
    ensures { result ≡ args_count (args_of args.now) }
{
    match args {
        None => 0,
        Some(args) => args.len(),
    }
}

/// A constructor (JLS 8.8).
fn note_ctor<'a, A: Mark>(
    alloc: Global,
    table: &Table,
    key: &'a MemberKey,
    row: u32,
    super_at: u32,
    at: u32,
    modifiers: usize,
    name: &Ident<A>,
    params: &'a [Param<A>],
    args: &Option<Vec<Expr<A>>>,
    body: &'a [Stmt<A>],
    log: &mut Vec<Note>,
    types: &mut Types,
) -> Result<(), AllocError>
    requires row { number_of table.now (decl_of (member_key_of key.now)) ≡ Some row }
    requires fits_name { A.fits_at name.now.mark at }
    requires fits_params { FitsParams (λ m b. (A.span_from m b).from) A.fits_at at
        (map param_of params.now) }
    requires fits_args { FitsMaybeArgs (λ m b. (A.span_from m b).from) A.fits_at at
        (args_of args.now) }
    requires fits_body { FitsStmts (λ m b. (A.span_from m b).from) A.fits_at at
        (stmts_of body.now) }
    ensures notes { IfOk result (λ _. Adds
        (notes_of table.now (member_key_of key.now) log.old.items)
        (pure.ctor_notes (λ m b. (A.span_from m b).from) table.now (member_key_of key.now) at
        super_at (word_of name.now) (map param_of params.now) (args_of args.now)
        (stmts_of body.now)) (notes_of table.now (member_key_of key.now) log.new.items)) }
    ensures slots { IfOk result (λ _. types.new ≡ types.old ++ flat (node None
        (put_stmts table.now
        (put_args table.now
        (with_parameters (member_key_of key.now) true (map param_of params.now))
        (put_leaves (length params.now) (put_leaves 1 (put_leaves modifiers none)))
        (args_of args.now))
        (length params.now)
        (with_parameters (member_key_of key.now) false (map param_of params.now))
        (stmts_of body.now)))) }
{
    let before = types.count();
    let number = count(params)?;
    let front = put_front(modifiers, 1, params.len(), types)?;
    let first = more_parts(front, super_parts(args))?;
    let parts = more_parts(first, body.len())?;
    let mut place = place_with(alloc, table, key, row, true, params)?;
    put_params(table, place.class, at, params, log)?;
    let at_name = name.mark.span(at).from;
    put_super(
        alloc, table, &place, super_at, at, at_name, args, log, types,
    )?;
    make_instance(&mut place);
    stmts(alloc, table, &mut place, at, number, body, log, types)?;
    types.close(before, parts, None)
}

/// A field, method or constructor. A member class is a part of its own.
#[tactic(auto, unfolding(jr_ast::specs::View::member_kind))]
pub fn note_member<'a, A: Mark>(
    alloc: Global,
    table: &Table,
    key: &'a MemberKey,
    row: u32,
    super_at: u32,
    base: u32,
    of: &'a Member<A>,
    log: &mut Vec<Note>,
    types: &mut Types,
) -> Result<(), AllocError>
    requires row { number_of table.now (decl_of (member_key_of key.now)) ≡ Some row }
    requires fits { FitsMember (λ m b. (A.span_from m b).from) A.fits_at base
        (member_of of.now) }
    ensures notes { IfOk result (λ _. Adds
        (notes_of table.now (member_key_of key.now) log.old.items)
        (walks.member_notes (λ m b. (A.span_from m b).from) table.now super_at
        (member_key_of key.now) base (member_of of.now))
        (notes_of table.now (member_key_of key.now) log.new.items)) }
    ensures slots { IfOk result (λ _. types.new ≡ types.old ++ flat (part_tree
        (λ m b. (A.span_from m b).from) table.now (member_key_of key.now)
        (member_part (member_of of.now)))) }
{
    match &of.kind {
        MemberKind::Field {
            modifiers,
            ty,
            name: _,
            init,
        } => {
            let at = of.mark.span(base).from;
            let is_static = is_static_member(modifiers.as_slice());
            let words = modifiers.len();
            note_field(
                alloc, table, key, row, at, is_static, words, ty, init, log, types,
            )
        }
        MemberKind::Method {
            modifiers,
            ret,
            name,
            params,
            body,
        } => {
            let at = of.mark.span(base).from;
            let is_static = is_static_member(modifiers.as_slice());
            let words = modifiers.len();
            note_method(
                alloc, table, key, row, at, is_static, words, ret, name, params, body, log, types,
            )
        }
        MemberKind::Ctor {
            modifiers,
            name,
            params,
            parent_args: args,
            body,
        } => {
            let at = of.mark.span(base).from;
            let words = modifiers.len();
            note_ctor(
                alloc, table, key, row, super_at, at, words, name, params, args, body, log, types,
            )
        }
        MemberKind::Inner(_) => put_leaf(types),
    }
}
