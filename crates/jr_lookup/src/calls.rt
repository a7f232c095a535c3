//! Methods and constructors, by the numbers of rows (JLS 15.12, 15.9.3).
ghost use Rattle.std.specs.Prelude.{◌≡◌, IfOk, []};
ghost use Rattle.jr_table.specs.Entries.{entries_of};
ghost use Rattle.jr_table.specs.Calls as calls;

use crate::choice::choose_at;
use crate::fields::object_answer;
use jr_table::{Answer, Kind, Table};
use std::alloc::{AllocError, Global};

/// What a call on a class, on an expression of its type, or by `super` finds, at a place of
/// another (JLS 15.12.2).
#[tactic(auto, unfolding(jr_table::specs::Calls::find_method))]
pub fn method_at(
    alloc: Global,
    table: &Table,
    place: u32,
    class: u32,
    name: &str,
    args: &[Kind],
) -> Result<Answer, AllocError>
    ensures { IfOk result (λ a.
        a ≡ calls.find_method (entries_of table.now) place class name.now args.now) }
{
    let methods = table.methods_named(alloc, class, name)?;
    choose_at(alloc, table, place, args, methods.as_slice())
}

/// What a creation of a class, or its `super(..)` call, finds, at a place of another
/// (JLS 15.9.3, 8.8.7.1).
#[tactic(auto, unfolding(jr_table::specs::Calls::find_ctor))]
pub fn ctor_at(
    alloc: Global,
    table: &Table,
    place: u32,
    class: u32,
    args: &[Kind],
) -> Result<Answer, AllocError>
    ensures { IfOk result (λ a.
        a ≡ calls.find_ctor (entries_of table.now) place class args.now) }
{
    let ctors = table.ctors_in(alloc, class)?;
    choose_at(alloc, table, place, args, ctors.as_slice())
}

/// A chosen method is asked for its object.
fn from_object(table: &Table, place: u32, is_static: bool, class: u32, answer: Answer) -> Answer
    ensures { result ≡ calls.from_object (entries_of table.now) place is_static class answer }
{
    match answer {
        Answer::One(number) => object_answer(table, place, is_static, class, number),
        Answer::Nothing => answer,
        Answer::Many(_, _) => answer,
        Answer::NotAccessible(_) => answer,
        Answer::FromStatic(_) => answer,
    }
}

/// The answer of the class that is searched.
fn call_in(
    alloc: Global,
    table: &Table,
    place: u32,
    is_static: bool,
    args: &[Kind],
    class: u32,
    numbers: &[u32],
) -> Result<Answer, AllocError>
    ensures { IfOk result (λ a.
        a ≡ calls.call_in (entries_of table.now) place is_static args.now class numbers.now) }
{
    let answer = choose_at(alloc, table, place, args, numbers)?;
    Ok(from_object(table, place, is_static, class, answer))
}

/// The answer from the class around.
fn call_around(
    alloc: Global,
    table: &Table,
    place: u32,
    is_static: bool,
    name: &str,
    args: &[Kind],
) -> Result<Answer, AllocError>
    ensures { IfOk result (λ a. a ≡ calls.call_from (entries_of table.now) place is_static name.now
        args.now []) }
{
    let Some(class) = table.outer_of(place) else {
        return Ok(Answer::Nothing);
    };
    let methods = table.methods_named(alloc, class, name)?;
    call_in(
        alloc,
        table,
        place,
        is_static,
        args,
        class,
        methods.as_slice(),
    )
}

/// What a call without a target finds at a place of a class: the innermost enclosing class that
/// has a member method of the name is searched (JLS 15.12.1). `FromStatic` where an instance
/// method is chosen that has no object there (JLS 15.12.3).
#[tactic(auto, unfolding(jr_table::specs::Calls::find_call))]
pub fn call_at(
    alloc: Global,
    table: &Table,
    place: u32,
    is_static: bool,
    name: &str,
    args: &[Kind],
) -> Result<Answer, AllocError>
    ensures { IfOk result (λ a.
        a ≡ calls.find_call (entries_of table.now) place is_static name.now args.now) }
{
    let methods = table.methods_named(alloc, place, name)?;
    if methods.is_empty() {
        return call_around(alloc, table, place, is_static, name, args);
    }
    call_in(
        alloc,
        table,
        place,
        is_static,
        args,
        place,
        methods.as_slice(),
    )
}
