//! What the head of a class notes (JLS 8.1.1.2, 8.1.4, 8.8.9).
ghost use Rattle.std.specs.Prelude.{◌≡◌, Some, IfOk, option_map};
ghost use Rattle.jr_ast.specs.View.{type_of, member_of, members_of, class_of};
ghost use Rattle.jr_table.specs.DeclaredItems.{writes_ctor};
ghost use Rattle.jr_table.specs.Lookup.{shown};
ghost use Rattle.jr_table.specs.HeadNotes as notes;
ghost use Rattle.jr_bind_expr.specs.Fits.{FitsType};
ghost use Rattle.jr_bind_parts.specs.DeclaredTypes.{FitsMaybeType};
ghost use Rattle.jr_bind_parts.specs.Heads as pure;

use crate::declared::{put_declared, put_type};
use jr_ast::{Class, Member, MemberKind, Name, TypeKind, TypeRef};
use jr_bind_expr::{Args, Note, ctor_in, has_final, is_one, put_raw, row_at};
use jr_table::{Answer, Rule, Table};
use jr_text::Mark;
use std::alloc::{AllocError, Global};

/// The class of a name that is no member class.
fn top(table: &Table, name: &Name) -> Answer
    ensures { shown table.now result ≡ notes.top_found table.now name.now }
{
    table.keeps_rows();
    match table.top_number(name) {
        None => Answer::Nothing,
        Some(number) => Answer::One(number),
    }
}

/// A superclass's name, where no class is around (JLS 6.3).
#[tactic(auto, unfolding(jr_bind_expr::specs::Fits::FitsType))]
fn put_top<A: Mark>(
    table: &Table,
    base: u32,
    of: &TypeRef<A>,
    log: &mut Vec<Note>,
) -> Result<(), AllocError>
    requires { FitsType (λ m b. (A.span_from m b).from) A.fits_at base (type_of of.now) }
    ensures { IfOk result (λ _. pure.PutsTop (λ m b. (A.span_from m b).from) table.now base
        (type_of of.now) log.old.items log.new.items) }
{
    match &of.kind {
        TypeKind::Int => Ok(()),
        TypeKind::Boolean => Ok(()),
        TypeKind::Named(outer, name) => match outer {
            Some(_) => Ok(()),
            None => {
                let at = of.mark.span(base).from;
                let at_name = name.mark.span(at).from;
                put_declared(table, at_name, top(table, &name.name), log)
            }
        },
    }
}

/// A superclass's name. That of a member class is seen from the class around it.
fn put_name<A: Mark>(
    table: &Table,
    class: u32,
    base: u32,
    of: &TypeRef<A>,
    log: &mut Vec<Note>,
) -> Result<(), AllocError>
    requires { FitsType (λ m b. (A.span_from m b).from) A.fits_at base (type_of of.now) }
    ensures { IfOk result (λ _. pure.PutsOfClass table.now class (λ k. notes.declared_notes
        (notes.parent_references (λ m b. (A.span_from m b).from) table.now k.outer base
        (type_of of.now))) log.old.items log.new.items) }
{
    table.keeps_rows();
    match table.outer_of(class) {
        None => put_top(table, base, of, log),
        Some(outer) => put_type(table, outer, base, of, log),
    }
}

/// Whether a class is final.
fn is_final(table: &Table, class: Option<u32>) -> bool
    ensures { result ≡ pure.is_final_at table.now class }
{
    match class {
        None => false,
        Some(class) => match row_at(table, class) {
            None => false,
            Some(row) => has_final(&row.modifiers),
        },
    }
}

/// The constructor of the superclass that takes these arguments, at a place of the class.
pub fn super_ctor(
    alloc: Global,
    table: &Table,
    class: u32,
    args: &Args,
) -> Result<Answer, AllocError>
    ensures { IfOk result (λ a. pure.IsSuperCtor table.now class args.now a) }
{
    table.keeps_rows();
    ctor_in(alloc, table, class, table.parent_of(class), args)
}

/// Whether the superclass has no constructor for an implicit `super()`, or several (JLS 8.8.7).
pub fn lacks_super_ctor(alloc: Global, table: &Table, class: u32) -> Result<bool, AllocError>
    ensures { IfOk result (λ b. pure.IsLacking table.now class b) }
{
    let args = Args::new(alloc);
    let answer = super_ctor(alloc, table, class, &args)?;
    Ok(!is_one(table, answer))
}

/// A superclass's name, and that the superclass isn't final.
fn put_final<A: Mark>(
    table: &Table,
    class: u32,
    at: u32,
    of: &TypeRef<A>,
    log: &mut Vec<Note>,
) -> Result<(), AllocError>
    requires { FitsType (λ m b. (A.span_from m b).from) A.fits_at at (type_of of.now) }
    ensures { IfOk result (λ _. pure.PutsOfClass table.now class (λ k. pure.parent_notes
        (λ m b. (A.span_from m b).from) table.now k at (Some (type_of of.now)))
        log.old.items log.new.items) }
{
    put_name(table, class, at, of, log)?;
    let is_broken = is_final(table, table.parent_of(class));
    put_raw(is_broken, of.mark.span(at).from, Rule::FinalClass, log)
}

/// The superclass, and that it isn't final.
fn put_parent<A: Mark>(
    table: &Table,
    class: u32,
    at: u32,
    of: &Option<TypeRef<A>>,
    log: &mut Vec<Note>,
) -> Result<(), AllocError>
    requires { FitsMaybeType (λ m b. (A.span_from m b).from) A.fits_at at
        (option_map type_of of.now) }
    ensures { IfOk result (λ _. pure.PutsOfClass table.now class (λ k. pure.parent_notes
        (λ m b. (A.span_from m b).from) table.now k at (option_map type_of of.now))
        log.old.items log.new.items) }
{
    match of {
        None => Ok(()),
        Some(of) => put_final(table, class, at, of, log),
    }
}

/// Whether a member is a constructor.
#[tactic(auto, unfolding(jr_ast::specs::View::member_kind))]
fn is_ctor<A>(of: &Member<A>) -> bool
    ensures { result ≡ pure.is_ctor_member (member_of of.now) }
{
    match &of.kind {
        MemberKind::Ctor { .. } => true,
        MemberKind::Field { .. } => false,
        MemberKind::Method { .. } => false,
        MemberKind::Inner(_) => false,
    }
}

/// Whether a constructor is written.
fn writes_ctor<A: Mark>(members: &[Member<A>]) -> bool
    ensures { result ≡ writes_ctor (λ m b. (A.span_from m b).from) (members_of members.now) }
{
    for member in members {
        if is_ctor(member) {
            return true;
        }
    }
    false
}

/// The head of a class.
pub fn put_head<A: Mark>(
    alloc: Global,
    table: &Table,
    class: u32,
    base: u32,
    of: &Class<A>,
    log: &mut Vec<Note>,
) -> Result<(), AllocError>
    requires { pure.FitsHead (λ m b. (A.span_from m b).from) A.fits_at base (class_of of.now) }
    ensures { IfOk result (λ _. pure.PutsOfClass table.now class (λ k. notes.head_notes
        (λ m b. (A.span_from m b).from) table.now k base (class_of of.now)) log.old.items
        log.new.items) }
{
    let at = of.mark.span(base).from;
    put_parent(table, class, at, &of.parent, log)?;
    let lacks = lacks_super_ctor(alloc, table, class)?;
    let is_broken = !writes_ctor(of.members.as_slice()) & lacks;
    put_raw(is_broken, of.name.mark.span(at).from, Rule::SuperCtor, log)
}
