//! What words in front of a dot find in the new program, each with its new name (JLS 6.4.2,
//! 6.5.2): by the numbers of rows, so that no key is copied.
ghost use Rattle.std.specs.Prelude.{◌≡◌, ◌↔◌, IsTrue, IfOk, None};
ghost use Rattle.jr_table.specs.TypeView.{class_key_of};
ghost use Rattle.jr_table.specs.Found.{Found, nothing};
ghost use Rattle.jr_table.specs.Lookup.{find_field_in, FindsLeft, FindsLeftOf};
ghost use Rattle.jr_table.specs.Lookup as lookup;
ghost use Rattle.jr_lookup.specs.ScopeView.{scope_of};
ghost use Rattle.jr_images.specs.Words.{class_name, value_of};
ghost use Rattle.jr_new_words.specs.Mappings as words;
ghost use Rattle.jr_new_words.specs.FrontView.{in_front_of};
ghost use Rattle.jr_new_words.specs.Scopes.{
  IsKept,
  rows_of,
  mapping_of,
  context_of,
  rows_to,
  place_to,
};
ghost use Rattle.jr_new_words.specs.Staying.{without_locals};

use crate::fronts::InFront;
use crate::mappings::class_to;
use crate::scopes::Scopes;
use crate::staying::row_decl;
use crate::values::{number_stands, row_stands};
use jr_ast::Name;
use jr_lookup::{Scope, field_at, field_in_at, member_type_at, type_at};
use jr_table::{Answer, ClassKey, Table, lookups_are_exact};
use std::alloc::AllocError;

// ---- what a name finds, by the numbers of rows

/// Whether there is no such row.
fn lacks_row(table: &Table, number: u32) -> bool
    ensures { IsTrue result ↔ (lookup.decl_at table.now number ≡ None) }
{
    match row_decl(table, number) {
        None => true,
        Some(_) => false,
    }
}

/// Whether nothing is found.
fn is_nothing(table: &Table, answer: Answer) -> bool
    ensures { IsTrue result ↔ (lookup.shown table.now answer ≡ nothing) }
{
    match answer {
        Answer::Nothing => true,
        Answer::One(number) => lacks_row(table, number),
        Answer::Many(first, second) => lacks_row(table, first) | lacks_row(table, second),
        Answer::NotAccessible(number) => lacks_row(table, number),
        Answer::FromStatic(number) => lacks_row(table, number),
    }
}

/// What a name in front of a dot finds where no local has it: a field, or else a class.
fn first_answer(table: &Table, scope: &Scope, name: &Name) -> Answer
    ensures { FindsLeft table.now (without_locals (scope_of scope.now)) name.now
        (lookup.shown table.now result) }
{
    table.keeps_rows();
    lookups_are_exact();
    let place = table.number_or_none(&scope.class);
    let field = field_at(table, place, scope.is_static, name.as_str());
    if is_nothing(table, field) {
        type_at(table, place, name)
    } else {
        field
    }
}

/// What a name behind the class's name and in front of a further dot finds: a field of it, or else
/// a member class.
fn next_answer(table: &Table, scope: &Scope, class: &ClassKey, name: &Name) -> Answer
    ensures { FindsLeftOf table.now (scope_of scope.now) (class_key_of class.now) name.now
        (lookup.shown table.now result) }
{
    table.keeps_rows();
    lookups_are_exact();
    let place = table.number_or_none(&scope.class);
    let class = table.number_or_none(class);
    let field = field_in_at(table, place, class, name.as_str());
    if is_nothing(table, field) {
        member_type_at(table, place, class, name.as_str())
    } else {
        field
    }
}

/// What the field of a class finds.
#[tactic(auto, unfolding(jr_table::specs::Lookup::find_field_in))]
fn field_answer(table: &Table, scope: &Scope, class: &ClassKey, name: &Name) -> Answer
    ensures { lookup.shown table.now result ≡ find_field_in table.now (scope_of scope.now)
        (class_key_of class.now) name.now }
{
    let place = table.number_or_none(&scope.class);
    let class = table.number_or_none(class);
    field_in_at(table, place, class, name.as_str())
}

// ---- how it stands in front of a dot

fn answer_stands<'a>(scopes: &Scopes<'a>, answer: Answer) -> Result<InFront<'a>, AllocError>
    requires { IsKept scopes.now }
    ensures { IfOk result (λ w. words.StandsSo (rows_of scopes.now) (mapping_of scopes.now)
        (context_of scopes.now) (lookup.shown (rows_to scopes.now) answer) (in_front_of w)) }
{
    match answer {
        Answer::One(number) => row_stands(scopes, number),
        Answer::Nothing => Ok(InFront::Neither),
        Answer::Many(_, _) => Ok(InFront::Neither),
        Answer::NotAccessible(_) => Ok(InFront::Neither),
        Answer::FromStatic(_) => Ok(InFront::Neither),
    }
}

/// The same of a field of the class.
fn field_stands<'a>(
    scopes: &Scopes<'a>,
    class: &ClassKey,
    name: &Name,
) -> Result<InFront<'a>, AllocError>
    requires { IsKept scopes.now }
    ensures { IfOk result (λ w. (f : Found) × words.FindsNext (rows_of scopes.now)
        (mapping_of scopes.now) (context_of scopes.now) (value_of (class_key_of class.now))
        name.now f × words.StandsSo (rows_of scopes.now) (mapping_of scopes.now)
        (context_of scopes.now) f (in_front_of w)) }
{
    let table = scopes.programs.after;
    table.keeps_rows();
    lookups_are_exact();
    answer_stands(scopes, field_answer(table, &scopes.after, class, name))
}

/// The same of a field or a member class of the class.
fn member_stands<'a>(
    scopes: &Scopes<'a>,
    class: &ClassKey,
    name: &Name,
) -> Result<InFront<'a>, AllocError>
    requires { IsKept scopes.now }
    ensures { IfOk result (λ w. (f : Found) × words.FindsNext (rows_of scopes.now)
        (mapping_of scopes.now) (context_of scopes.now) (class_name (class_key_of class.now))
        name.now f × words.StandsSo (rows_of scopes.now) (mapping_of scopes.now)
        (context_of scopes.now) f (in_front_of w)) }
{
    let table = scopes.programs.after;
    answer_stands(scopes, next_answer(table, &scopes.after, class, name))
}

/// What a first word is in front of a dot.
pub(crate) fn first_named<'a>(scopes: &Scopes<'a>, name: &Name) -> Result<InFront<'a>, AllocError>
    requires { IsKept scopes.now }
    ensures { IfOk result (λ w. (f : Found) × FindsLeft (rows_to scopes.now) (place_to scopes.now)
        name.now f × words.StandsSo (rows_of scopes.now) (mapping_of scopes.now)
        (context_of scopes.now) f (in_front_of w)) }
{
    let table = scopes.programs.after;
    table.keeps_rows();
    lookups_are_exact();
    match scopes.renamed.number_named(name) {
        Some(number) => number_stands(scopes, number),
        None => answer_stands(scopes, first_answer(table, &scopes.after, name)),
    }
}

/// What a word is behind words that stand so, and in front of a further dot.
pub(crate) fn next_named<'a>(
    scopes: &Scopes<'a>,
    front: &InFront<'_>,
    name: &Name,
) -> Result<InFront<'a>, AllocError>
    requires { IsKept scopes.now }
    ensures { IfOk result (λ w. (f : Found) × words.FindsNext (rows_of scopes.now)
        (mapping_of scopes.now) (context_of scopes.now) (in_front_of front.now) name.now f
        × words.StandsSo (rows_of scopes.now) (mapping_of scopes.now) (context_of scopes.now) f
        (in_front_of w)) }
{
    match *front {
        InFront::Class(class) => member_stands(scopes, class, name),
        InFront::Value(class) => field_stands(scopes, class, name),
        InFront::Neither => Ok(InFront::Neither),
    }
}

// ---- of classes, by their new names

/// What the new name of a class finds as the first word in front of a dot.
pub fn first_word<'a>(scopes: &Scopes<'a>, class: &ClassKey) -> Result<InFront<'a>, AllocError>
    requires { IsKept scopes.now }
    ensures { IfOk result (λ w. words.FirstStands (rows_of scopes.now) (mapping_of scopes.now)
        (context_of scopes.now) (class_key_of class.now) (in_front_of w)) }
{
    let image = class_to(&scopes.programs.keys, class)?;
    first_named(scopes, &image.name)
}

/// The same behind words that stand so.
pub fn next_word<'a>(
    scopes: &Scopes<'a>,
    front: &InFront<'_>,
    class: &ClassKey,
) -> Result<InFront<'a>, AllocError>
    requires { IsKept scopes.now }
    ensures { IfOk result (λ w. words.NextStands (rows_of scopes.now) (mapping_of scopes.now)
        (context_of scopes.now) (in_front_of front.now) (class_key_of class.now)
        (in_front_of w)) }
{
    let image = class_to(&scopes.programs.keys, class)?;
    next_named(scopes, front, &image.name)
}
