//! What calls and creations find, by the numbers of rows (JLS 15.9.3, 15.12).
ghost use Rattle.std.specs.Prelude.{◌≡◌, IfOk};
ghost use Rattle.jr_table.specs.Entries.{entries_of};
ghost use Rattle.jr_table.specs.Calls as calls;
ghost use Rattle.jr_bind_expr.specs.Numbered.{in_class, for_kinds};
ghost use Rattle.jr_bind_expr.specs.ArgsView.{kinds_of};

use crate::args::Args;
use jr_lookup::{call_at, ctor_at, method_at};
use jr_table::{Answer, Table};
use std::alloc::{AllocError, Global};

/// A call without a target, at a place of a class.
pub(crate) fn plain_call(
    alloc: Global,
    table: &Table,
    place: u32,
    is_static: bool,
    name: &str,
    args: &Args,
) -> Result<Answer, AllocError>
    ensures { IfOk result (λ a. a ≡ for_kinds (kinds_of args.now) (λ ts.
        calls.find_call (entries_of table.now) place is_static name.now ts)) }
{
    match args.as_slice() {
        None => Ok(Answer::Nothing),
        Some(kinds) => call_at(alloc, table, place, is_static, name, kinds),
    }
}

/// A method of a class.
fn method_of(
    alloc: Global,
    table: &Table,
    place: u32,
    class: u32,
    name: &str,
    args: &Args,
) -> Result<Answer, AllocError>
    ensures { IfOk result (λ a. a ≡ for_kinds (kinds_of args.now) (λ ts.
        calls.find_method (entries_of table.now) place class name.now ts)) }
{
    match args.as_slice() {
        None => Ok(Answer::Nothing),
        Some(kinds) => method_at(alloc, table, place, class, name, kinds),
    }
}

/// A method of a class, if there is one, at a place of another.
pub(crate) fn method_in(
    alloc: Global,
    table: &Table,
    place: u32,
    class: Option<u32>,
    name: &str,
    args: &Args,
) -> Result<Answer, AllocError>
    ensures { IfOk result (λ a. a ≡ in_class class (λ c. for_kinds (kinds_of args.now) (λ ts.
        calls.find_method (entries_of table.now) place c name.now ts))) }
{
    match class {
        None => Ok(Answer::Nothing),
        Some(class) => method_of(alloc, table, place, class, name, args),
    }
}

/// A constructor of a class.
fn ctor_of(
    alloc: Global,
    table: &Table,
    place: u32,
    class: u32,
    args: &Args,
) -> Result<Answer, AllocError>
    ensures { IfOk result (λ a. a ≡ for_kinds (kinds_of args.now) (λ ts.
        calls.find_ctor (entries_of table.now) place class ts)) }
{
    match args.as_slice() {
        None => Ok(Answer::Nothing),
        Some(kinds) => ctor_at(alloc, table, place, class, kinds),
    }
}

/// A constructor of a class, if there is one, at a place of another.
pub fn ctor_in(
    alloc: Global,
    table: &Table,
    place: u32,
    class: Option<u32>,
    args: &Args,
) -> Result<Answer, AllocError>
    ensures { IfOk result (λ a. a ≡ in_class class (λ c. for_kinds (kinds_of args.now) (λ ts.
        calls.find_ctor (entries_of table.now) place c ts))) }
{
    match class {
        None => Ok(Answer::Nothing),
        Some(class) => ctor_of(alloc, table, place, class, args),
    }
}
