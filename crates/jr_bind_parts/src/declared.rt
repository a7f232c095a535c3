//! References in the types of declarations (JLS 6.5.5, 8.1.4, 8.3, 8.4.1, 8.4.5).
ghost use Rattle.std.specs.Prelude.{◌≡◌, ◌++◌, map, IfOk, option_map};
ghost use Rattle.jr_ast.specs.View.{word_of, type_of, param_of};
ghost use Rattle.jr_table.specs.Lookup.{shown};
ghost use Rattle.jr_table.specs.Meanings.{type_references};
ghost use Rattle.jr_table.specs.HeadNotes.{param_references, result_references};
ghost use Rattle.jr_bind_expr.specs.Fits.{FitsNamed, FitsType};
ghost use Rattle.jr_bind_parts.specs.DeclaredTypes as pure;

use jr_ast::{Ident, Param, TypeKind, TypeRef};
use jr_bind_expr::{Finding, Note, Sought, class_found, is_nothing, type_in};
use jr_lookup::type_at;
use jr_table::{Answer, Table};
use jr_text::Mark;
use std::alloc::AllocError;

/// Whether a reference is bound, or to what isn't accessible.
fn is_told(table: &Table, answer: Answer) -> bool
    ensures { result ≡ pure.is_told (shown table.now answer) }
{
    if is_nothing(table, answer) {
        return false;
    }
    match answer {
        Answer::One(_) => true,
        Answer::Nothing => false,
        Answer::Many(_, _) => false,
        Answer::NotAccessible(_) => true,
        Answer::FromStatic(_) => false,
    }
}

/// Notes what a reference finds, where it is told.
fn put_finding(
    is_told: bool,
    at: u32,
    answer: Answer,
    log: &mut Vec<Note>,
) -> Result<(), AllocError>
    ensures { IfOk result (λ _. pure.PutsIf is_told at answer log.old.items log.new.items) }
{
    if is_told {
        log.push(Note::Finds {
            at,
            sought: Sought::Type,
            finding: Finding::Rows(answer),
        })?;
    }
    Ok(())
}

/// Notes what a reference in a declaration finds. That it finds nothing is a fault of the program's
/// declarations, and no rule that a member breaks.
pub fn put_declared(
    table: &Table,
    at: u32,
    answer: Answer,
    log: &mut Vec<Note>,
) -> Result<(), AllocError>
    ensures { IfOk result (λ _. pure.PutsDeclared table.now at (shown table.now answer)
        log.old.items log.new.items) }
{
    put_finding(is_told(table, answer), at, answer, log)
}

/// The names of a type, one behind the other.
fn put_dotted<A: Mark>(
    table: &Table,
    class: u32,
    at: u32,
    outer: &Ident<A>,
    name: &Ident<A>,
    log: &mut Vec<Note>,
) -> Result<(), AllocError>
    requires outer { A.fits_at outer.now.mark at }
    requires name { A.fits_at name.now.mark at }
    ensures { IfOk result (λ _. pure.PutsDotted (λ m b. (A.span_from m b).from) table.now class at
        (word_of outer.now) (word_of name.now) log.old.items log.new.items) }
{
    let first = type_at(table, class, &outer.name);
    put_declared(table, outer.mark.span(at).from, first, log)?;
    let second = type_in(table, class, class_found(table, first), name.name.as_str());
    put_declared(table, name.mark.span(at).from, second, log)
}

/// The names of a type, seen from a class.
#[tactic(auto, unfolding(jr_bind_expr::specs::Fits::FitsType))]
pub fn put_type<A: Mark>(
    table: &Table,
    class: u32,
    base: u32,
    of: &TypeRef<A>,
    log: &mut Vec<Note>,
) -> Result<(), AllocError>
    requires { FitsType (λ m b. (A.span_from m b).from) A.fits_at base (type_of of.now) }
    ensures { IfOk result (λ _. pure.PutsReferences table.now class (λ c. type_references
        (λ m b. (A.span_from m b).from) table.now c base (type_of of.now)) log.old.items
        log.new.items) }
{
    match &of.kind {
        TypeKind::Int => Ok(()),
        TypeKind::Boolean => Ok(()),
        TypeKind::Named(outer, name) => {
            let at = of.mark.span(base).from;
            match outer {
                None => {
                    let answer = type_at(table, class, &name.name);
                    put_declared(table, name.mark.span(at).from, answer, log)
                }
                Some(outer) => put_dotted(table, class, at, outer, name, log),
            }
        }
    }
}

/// The type of a method's result, unless it is `void`.
pub fn put_result<A: Mark>(
    table: &Table,
    class: u32,
    base: u32,
    of: &Option<TypeRef<A>>,
    log: &mut Vec<Note>,
) -> Result<(), AllocError>
    requires { pure.FitsMaybeType (λ m b. (A.span_from m b).from) A.fits_at base
        (option_map type_of of.now) }
    ensures { IfOk result (λ _. pure.PutsReferences table.now class (λ c. result_references
        (λ m b. (A.span_from m b).from) table.now c base (option_map type_of of.now))
        log.old.items log.new.items) }
{
    match of {
        None => Ok(()),
        Some(of) => put_type(table, class, base, of, log),
    }
}

/// The types of parameters.
pub fn put_params<A: Mark>(
    table: &Table,
    class: u32,
    base: u32,
    params: &[Param<A>],
    log: &mut Vec<Note>,
) -> Result<(), AllocError>
    requires { pure.FitsParams (λ m b. (A.span_from m b).from) A.fits_at base
        (map param_of params.now) }
    ensures { IfOk result (λ _. pure.PutsReferences table.now class (λ c. param_references
        (λ m b. (A.span_from m b).from) table.now c base (map param_of params.now))
        log.old.items log.new.items) }
{
    for param in params {
        let at = param.mark.span(base).from;
        put_type(table, class, at, &param.ty, log)?;
    }
    Ok(())
}
