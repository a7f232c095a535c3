//! Simple names that find a variable and its image, which has the same name: found by numbers,
//! without memory.
ghost use Rattle.std.specs.Prelude.{◌≡◌, ◌↔◌, ℕ, IsTrue, IfSome, Some, None, option_map};
ghost use Rattle.jr_table.specs.Keys.{FieldKey};
ghost use Rattle.jr_table.specs.Decls.{field_decl};
ghost use Rattle.jr_table.specs.KeyView.{decl_of};
ghost use Rattle.jr_table.specs.Lookup.{decl_at};
ghost use Rattle.jr_table.specs.declared.answers.Answer.TheVariants as answers;
ghost use Rattle.jr_lookup.specs.ScopeView.{scope_of};
ghost use Rattle.jr_scopes.specs.Helds.{last_number};
ghost use Rattle.jr_scopes.specs.Tracked.{helds_of};
ghost use Rattle.jr_rewrite.specs.Respellings as respellings;
ghost use Rattle.jr_new_words.specs.Mappings.{BecomesAt};
ghost use Rattle.jr_new_words.specs.MappingView.{keys_of};
ghost use Rattle.jr_new_words.specs.Scopes.{
  AreTables,
  IsKept,
  rows_of,
  mapping_of,
  context_of,
};
ghost use Rattle.jr_new_words.specs.Chosen as chosen;
ghost use Rattle.jr_new_words.specs.Staying.{
  FindsRow,
  DeclareOne,
  DeclaresField,
  FindsLocal,
  LocalStays,
  FieldStays,
};

use crate::mappings::{KeyMapping, is_renamed_local};
use crate::numbers::number_if_kept;
use crate::programs::Tables;
use crate::scopes::Scopes;
use jr_ast::Name;
use jr_lookup::{Scope, field_at};
use jr_table::{Answer, Decl, Table, lookups_are_exact};

/// Whether it is the declaration of a field of the name.
fn is_field_named(decl: &Decl, name: &Name) -> bool
    ensures { IsTrue result → (k : FieldKey) × (decl_of decl.now ≡ field_decl k)
        × (k.name ≡ name.now) }
{
    match decl {
        Decl::Field(key) => key.name == *name,
        Decl::Class(_) => false,
        Decl::Method(_) => false,
        Decl::Ctor(_) => false,
        Decl::Local(_) => false,
    }
}

/// The declaration of a row, where there is the row.
pub(crate) fn row_decl(table: &Table, number: u32) -> Option<&Decl>
    ensures { option_map (λ d. decl_of d.now) result ≡ decl_at table.now number }
{
    match table.rows().get(number as usize) {
        None => None,
        Some(row) => Some(&row.decl),
    }
}

/// Whether a row declares a field of the name.
fn declares_field(table: &Table, name: &Name, number: u32) -> bool
    ensures { IsTrue result → DeclaresField table.now name.now number }
{
    match row_decl(table, number) {
        None => false,
        Some(decl) => is_field_named(decl, name),
    }
}

/// The row of the one declaration that is found.
pub(crate) fn one_row(answer: Answer) -> Option<u32>
    ensures { IfSome result (λ j. answer ≡ answers.One j) }
{
    match answer {
        Answer::One(number) => Some(number),
        Answer::Nothing => None,
        Answer::Many(_, _) => None,
        Answer::NotAccessible(_) => None,
        Answer::FromStatic(_) => None,
    }
}

/// The row of the field that a simple name finds at a place, where no local has the name.
fn field_row(table: &Table, scope: &Scope, name: &Name) -> Option<u32>
    ensures { IfSome result (FindsRow table.now (scope_of scope.now) name.now) }
{
    table.keeps_rows();
    lookups_are_exact();
    let place = table.number_or_none(&scope.class);
    one_row(field_at(table, place, scope.is_static, name.as_str()))
}

pub(crate) fn is_number(found: Option<u32>, number: u32) -> bool
    ensures { IsTrue result ↔ (found ≡ Some number) }
{
    match found {
        None => false,
        Some(own) => own == number,
    }
}

/// Whether the row declares this.
fn declares(table: &Table, number: u32, decl: &Decl) -> bool
    ensures { IsTrue result → decl_at table.now number ≡ Some (decl_of decl.now) }
{
    match row_decl(table, number) {
        None => false,
        Some(other) => *other == *decl,
    }
}

/// Whether both rows declare the same.
fn declare_one(tables: &Tables<'_>, before: u32, after: u32) -> bool
    ensures { IsTrue result → DeclareOne tables.now.before.now tables.now.after.now before
        after }
{
    match row_decl(tables.before, before) {
        None => false,
        Some(decl) => declares(tables.after, after, decl),
    }
}

/// Whether what the one row declares becomes what the other declares.
pub(crate) fn becomes(tables: &Tables<'_>, before: u32, after: u32) -> bool
    requires { AreTables tables.now }
    ensures { IsTrue result → BecomesAt (keys_of tables.now.keys) tables.now.before.now
        tables.now.after.now before after }
{
    match tables.keys {
        KeyMapping::Same => declare_one(tables, before, after),
        KeyMapping::Renamed(_) => before == after,
    }
}

/// Whether the one row's field becomes the other's, which has the name.
fn becomes_field(tables: &Tables<'_>, name: &Name, before: u32, after: u32) -> bool
    requires { AreTables tables.now }
    ensures { IsTrue result → BecomesAt (keys_of tables.now.keys) tables.now.before.now
        tables.now.after.now before after × DeclaresField tables.now.after.now name.now after }
{
    if becomes(tables, before, after) {
        declares_field(tables.after, name, after)
    } else {
        false
    }
}

/// Whether the name finds the image of this row's field in the new program, where no local has it
/// there, and the image has the name.
fn finds_image(scopes: &Scopes<'_>, name: &Name, number: u32) -> bool
    requires kept { IsKept scopes.now }
    requires free { last_number name.now (helds_of scopes.now.renamed) ≡ None }
    requires finds { FindsRow scopes.now.programs.before.now (scope_of scopes.now.before)
        name.now number }
    ensures { IsTrue result → FieldStays scopes.now name.now }
{
    match field_row(scopes.programs.after, &scopes.after, name) {
        None => false,
        Some(image) => becomes_field(&scopes.programs, name, number, image),
    }
}

/// Whether the name finds a field and its image, which has the name, where no local has it in the
/// new program.
fn field_agrees(scopes: &Scopes<'_>, name: &Name) -> bool
    requires kept { IsKept scopes.now }
    requires free { last_number name.now (helds_of scopes.now.renamed) ≡ None }
    ensures { IsTrue result → FieldStays scopes.now name.now }
{
    match field_row(scopes.programs.before, &scopes.before, name) {
        None => false,
        Some(number) => finds_image(scopes, name, number),
    }
}

/// Whether the name finds a field and its image, which has the name.
fn field_stays(scopes: &Scopes<'_>, name: &Name) -> bool
    requires { IsKept scopes.now }
    ensures { IsTrue result → FieldStays scopes.now name.now }
{
    match scopes.renamed.number_named(name) {
        Some(_) => false,
        None => field_agrees(scopes, name),
    }
}

/// Whether the name finds the image of the local of this number in the new program.
fn finds_local(scopes: &Scopes<'_>, name: &Name, number: u32) -> bool
    requires { IsKept scopes.now }
    ensures { IsTrue result → FindsLocal scopes.now name.now number }
{
    match number_if_kept(&scopes.numbers, number) {
        None => false,
        Some(to) => is_number(scopes.renamed.number_named(name), to),
    }
}

/// Whether the local of this number keeps its name, and the name finds it in the new program.
fn local_stays(scopes: &Scopes<'_>, name: &Name, number: u32) -> bool
    requires { IsKept scopes.now }
    ensures { IsTrue result → LocalStays scopes.now name.now number }
{
    if is_renamed_local(&scopes.programs.keys, scopes.member, number) {
        false
    } else {
        finds_local(scopes, name, number)
    }
}

/// Whether a simple name finds a variable and its image, which has the same name: so that the
/// reference stays as it is.
pub(crate) fn stays(scopes: &Scopes<'_>, name: &Name) -> bool
    requires { IsKept scopes.now }
    ensures { IsTrue result → (at : ℕ) → chosen.VariableIsChosen (rows_of scopes.now)
        (mapping_of scopes.now) (context_of scopes.now) at name.now (Some respellings.stays) }
{
    scopes.programs.before.keeps_rows();
    scopes.programs.after.keeps_rows();
    lookups_are_exact();
    match scopes.locals.number_named(name) {
        Some(number) => local_stays(scopes, name, number),
        None => field_stays(scopes, name),
    }
}
