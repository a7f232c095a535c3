//! Operators, assignments and casts (JLS 15.15 to 15.26).
ghost use Rattle.std.specs.Prelude.{◌≡◌, ◌++◌, ◌&&◌, false, IfOk};
ghost use Rattle.jr_table.specs.Entries.{entries_of};
ghost use Rattle.jr_bind_expr.specs.Places.{member_of};
ghost use Rattle.jr_bind_expr.specs.Logs.{notes_of};
ghost use Rattle.jr_bind_expr.specs.Numbered.{sign_kind, operator_kind};
ghost use Rattle.jr_bind_expr.specs.Arms as pure;

use crate::findings::Note;
use crate::kinds::{
    are_int, comparable, is_int, operator_kind, sign_kind, suits, takes, takes_one,
};
use crate::meanings::{Meaning, plain};
use crate::notes::{put_fixed, put_unless};
use crate::places::Place;
use jr_ast::{BinOp, UnOp};
use jr_table::{Kind, Rule, Table};
use std::alloc::AllocError;

/// A sign or `!`.
pub(crate) fn unary(
    table: &Table,
    place: &Place<'_>,
    op: UnOp,
    begin: u32,
    of: Meaning,
    log: &mut Vec<Note>,
) -> Result<Meaning, AllocError>
    ensures says { IfOk result (λ m. m ≡ pure.plain begin (Some (sign_kind op)) of.is_constant) }
    ensures notes { IfOk result (λ _. notes_of table.now (member_of place.now) log.new.items
        ≡ notes_of table.now (member_of place.now) log.old.items
        ++ pure.unary_notes (entries_of table.now) op begin of) }
{
    let is_kept = takes_one(op, of.kind);
    put_unless(table, place, is_kept, begin, Rule::Operands, log)?;
    Ok(plain(begin, Some(sign_kind(op)), of.is_constant))
}

/// `++` or `--`.
pub(crate) fn bump(
    table: &Table,
    place: &Place<'_>,
    begin: u32,
    of: Meaning,
    log: &mut Vec<Note>,
) -> Result<Meaning, AllocError>
    ensures says { IfOk result (λ m. m ≡ pure.plain begin (Some Kind.Int) false) }
    ensures notes { IfOk result (λ _. notes_of table.now (member_of place.now) log.new.items
        ≡ notes_of table.now (member_of place.now) log.old.items
        ++ pure.bump_notes (entries_of table.now) begin of) }
{
    let is_kept = is_int(of.kind);
    put_unless(table, place, is_kept, begin, Rule::Operands, log)?;
    put_fixed(table, place, of.fixed, log)?;
    Ok(plain(begin, Some(Kind::Int), false))
}

/// A binary operator.
pub(crate) fn binary(
    table: &Table,
    place: &Place<'_>,
    op: BinOp,
    begin: u32,
    left: Meaning,
    right: Meaning,
    log: &mut Vec<Note>,
) -> Result<Meaning, AllocError>
    ensures says { IfOk result (λ m. m ≡ pure.plain begin (Some (operator_kind op))
        (left.is_constant && right.is_constant)) }
    ensures notes { IfOk result (λ _. notes_of table.now (member_of place.now) log.new.items
        ≡ notes_of table.now (member_of place.now) log.old.items
        ++ pure.binary_notes (entries_of table.now) op begin left right) }
{
    let is_kept = takes(table, op, left.kind, right.kind);
    put_unless(table, place, is_kept, begin, Rule::Operands, log)?;
    let is_constant = left.is_constant & right.is_constant;
    Ok(plain(begin, Some(operator_kind(op)), is_constant))
}

/// `op=`, which takes integers (JLS 15.26.2).
pub(crate) fn compound(
    table: &Table,
    place: &Place<'_>,
    begin: u32,
    to: Meaning,
    value: Meaning,
    log: &mut Vec<Note>,
) -> Result<Meaning, AllocError>
    ensures says { IfOk result (λ m. m ≡ pure.plain begin (Some Kind.Int) false) }
    ensures notes { IfOk result (λ _. notes_of table.now (member_of place.now) log.new.items
        ≡ notes_of table.now (member_of place.now) log.old.items
        ++ pure.compound_notes (entries_of table.now) begin to value) }
{
    let is_kept = are_int(to.kind, value.kind);
    put_unless(table, place, is_kept, begin, Rule::Operands, log)?;
    put_fixed(table, place, to.fixed, log)?;
    Ok(plain(begin, Some(Kind::Int), false))
}

/// An assignment, whose type is that of what is assigned to (JLS 15.26).
pub(crate) fn assign(
    table: &Table,
    place: &Place<'_>,
    begin: u32,
    to: Meaning,
    value: Meaning,
    log: &mut Vec<Note>,
) -> Result<Meaning, AllocError>
    ensures says { IfOk result (λ m. m ≡ pure.plain begin to.kind false) }
    ensures notes { IfOk result (λ _. notes_of table.now (member_of place.now) log.new.items
        ≡ notes_of table.now (member_of place.now) log.old.items
        ++ pure.assign_notes (entries_of table.now) to value) }
{
    let is_kept = suits(table, value.kind, to.kind);
    put_unless(table, place, is_kept, value.at, Rule::TypeMismatch, log)?;
    put_fixed(table, place, to.fixed, log)?;
    Ok(plain(begin, to.kind, false))
}

/// A cast (JLS 15.16).
pub(crate) fn cast(
    table: &Table,
    place: &Place<'_>,
    begin: u32,
    kind: Option<Kind>,
    of: Meaning,
    log: &mut Vec<Note>,
) -> Result<Meaning, AllocError>
    ensures says { IfOk result (λ m. m ≡ pure.plain begin kind of.is_constant) }
    ensures notes { IfOk result (λ _. notes_of table.now (member_of place.now) log.new.items
        ≡ notes_of table.now (member_of place.now) log.old.items
        ++ pure.cast_notes (entries_of table.now) begin kind of) }
{
    let is_kept = comparable(table, kind, of.kind);
    put_unless(table, place, is_kept, begin, Rule::BadCast, log)?;
    Ok(plain(begin, kind, of.is_constant))
}
