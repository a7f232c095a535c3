//! Classes in front of a dot, and superclasses of top-level classes (JLS 6.5.2, 8.1.4). In an
//! expression `K` and `Outer.K` may take their place.
ghost use Rattle.std.specs.Prelude.{◌≡◌, Some, None, IfOk, option_map};
ghost use Rattle.jr_table.specs.Decls.{class_decl};
ghost use Rattle.jr_table.specs.TypeView.{class_key_of};
ghost use Rattle.jr_table.specs.FoundView.{found_of};
ghost use Rattle.jr_table.specs.Found.{one, nothing};
ghost use Rattle.jr_table.specs.Lookup.{FindsVariable, FindsFieldIn, FindsLeft, FindsLeftOf};
ghost use Rattle.jr_table.specs.HeadRules.{TopFinds};
ghost use Rattle.jr_table.specs.Context.{scope_of};
ghost use Rattle.jr_new_words.specs.Scopes.{
  AreTables,
  IsKept,
  rows_of,
  mapping_of,
  context_of,
  rows_to,
  place_to,
};
ghost use Rattle.jr_new_words.specs.Mappings.{FindsNext};
ghost use Rattle.jr_new_words.specs.MappingView.{mapping_in};
ghost use Rattle.jr_new_words.specs.FrontView.{in_front_of};
ghost use Rattle.jr_new_words.specs.ChoiceView.{choice_of};
ghost use Rattle.jr_new_words.specs.Taking.{
  Takes,
  asked_of,
  TakesInFront,
  TakesByName,
  LosesByName,
  RenamesOrLoses,
};
ghost use Rattle.jr_new_words.specs.Chosen as chosen;

use crate::asking::{Asked, asked_in_front};
use crate::choices::Choice;
use crate::choosing::{as_decl, choose, forget, lost_class, renaming};
use crate::class_words::{first_named, next_named};
use crate::finding::{class_found, is_class, is_nothing, something};
use crate::fronts::{InFront, names_class};
use crate::looking::{variable_of, variable_to};
use crate::mappings::class_to;
use crate::programs::Tables;
use crate::scopes::Scopes;
use crate::taking::{forget_asked, forget_decl};
use jr_ast::Name;
use jr_lookup::{field_of, member_type, type_named};
use jr_table::{ClassKey, Decl, Found, Table, lookups_are_exact};
use std::alloc::{AllocError, Global};

/// The new name where the image is found, or else the loss.
fn renamed_or_lost(
    alloc: Global,
    at: u32,
    old: &Name,
    key: &ClassKey,
    image: &ClassKey,
    found: Found,
) -> Result<Choice, AllocError>
    ensures { IfOk result (λ h. RenamesOrLoses at old.now (class_key_of key.now)
        (class_key_of image.now) (found_of found) (choice_of h)) }
{
    if is_class(&found, image) {
        forget(found);
        renaming(alloc, old, &image.name)
    } else {
        lost_class(at, key, found)
    }
}

// ---- in front of a dot, in an expression

/// The first spelling that binds of a class in front of a dot, if one does.
fn taken_as(
    alloc: Global,
    scopes: &Scopes<'_>,
    old: &Name,
    asked: &Asked,
    image: &ClassKey,
) -> Result<Option<Choice>, AllocError>
    requires { IsKept scopes.now }
    ensures { IfOk result (λ o. Takes (rows_to scopes.now) (place_to scopes.now)
        (asked_of asked.now (class_decl (class_key_of image.now))) old.now
        (option_map choice_of o)) }
{
    let key = image.copy()?;
    let target = as_decl(key);
    let choice = choose(alloc, scopes, asked, &target, old);
    forget_decl(target);
    choice
}

/// The same by words that stand so; behind a class, or not.
fn taken_in_front(
    alloc: Global,
    scopes: &Scopes<'_>,
    old: &Name,
    words: &InFront<'_>,
    behind: Option<&ClassKey>,
    image: &ClassKey,
) -> Result<Option<Choice>, AllocError>
    requires { IsKept scopes.now }
    ensures { IfOk result (λ o. TakesInFront (rows_to scopes.now) (place_to scopes.now)
        (in_front_of words.now) (option_map (λ k. class_key_of k.now) behind.entry)
        (class_key_of image.now) old.now (option_map choice_of o)) }
{
    let asked = asked_in_front(alloc, words, behind, image)?;
    let choice = taken_as(alloc, scopes, old, &asked, image);
    forget_asked(asked);
    choice
}

/// The same of a first word, mostly without a copy.
fn first_in_front(
    alloc: Global,
    scopes: &Scopes<'_>,
    old: &Name,
    words: &InFront<'_>,
    image: &ClassKey,
) -> Result<Option<Choice>, AllocError>
    requires { IsKept scopes.now }
    ensures { IfOk result (λ o. TakesInFront (rows_to scopes.now) (place_to scopes.now)
        (in_front_of words.now) None (class_key_of image.now) old.now
        (option_map choice_of o)) }
{
    if names_class(words, image) {
        Ok(Some(renaming(alloc, old, &image.name)?))
    } else {
        taken_in_front(alloc, scopes, old, words, None, image)
    }
}

/// What a name finds in front of a dot in the new program: a variable, or else a class.
fn left_found(scopes: &Scopes<'_>, name: &Name) -> Result<Found, AllocError>
    requires { IsKept scopes.now }
    ensures { IfOk result (λ f. FindsLeft (rows_to scopes.now) (place_to scopes.now) name.now
        (found_of f)) }
{
    let table = scopes.programs.after;
    table.keeps_rows();
    lookups_are_exact();
    let hiding = variable_to(scopes, name)?;
    match something(hiding) {
        None => type_named(table, &scopes.after, name),
        Some(hiding) => Ok(hiding),
    }
}

/// The same behind the name of a class: a field, or else a member class.
fn left_in(scopes: &Scopes<'_>, class: &ClassKey, name: &Name) -> Result<Found, AllocError>
    requires { IsKept scopes.now }
    ensures { IfOk result (λ f. FindsLeftOf (rows_to scopes.now) (place_to scopes.now)
        (class_key_of class.now) name.now (found_of f)) }
{
    let table = scopes.programs.after;
    table.keeps_rows();
    lookups_are_exact();
    let hiding = field_of(table, &scopes.after, class, name)?;
    match something(hiding) {
        None => member_type(table, &scopes.after, class, name),
        Some(hiding) => Ok(hiding),
    }
}

/// The same behind words that stand so.
fn next_found(scopes: &Scopes<'_>, front: &InFront<'_>, name: &Name) -> Result<Found, AllocError>
    requires { IsKept scopes.now }
    ensures { IfOk result (λ f. FindsNext (rows_of scopes.now) (mapping_of scopes.now)
        (context_of scopes.now) (in_front_of front.now) name.now (found_of f)) }
{
    match *front {
        InFront::Class(class) => left_in(scopes, class, name),
        InFront::Value(class) => field_of(scopes.programs.after, &scopes.after, class, name),
        InFront::Neither => Ok(Found::Nothing),
    }
}

/// The first spelling of a class as the first word that binds, if one does.
fn first_taken(
    alloc: Global,
    scopes: &Scopes<'_>,
    old: &Name,
    image: &ClassKey,
) -> Result<Option<Choice>, AllocError>
    requires { IsKept scopes.now }
    ensures { IfOk result (λ o. TakesByName (rows_of scopes.now) (mapping_of scopes.now)
        (context_of scopes.now) (FindsLeft (rows_to scopes.now) (place_to scopes.now)) None
        (class_key_of image.now) old.now (option_map choice_of o)) }
{
    let words = first_named(scopes, &image.name)?;
    first_in_front(alloc, scopes, old, &words, image)
}

/// The loss of a class as the first word.
fn first_lost(
    scopes: &Scopes<'_>,
    at: u32,
    key: &ClassKey,
    image: &ClassKey,
) -> Result<Choice, AllocError>
    requires { IsKept scopes.now }
    ensures { IfOk result (λ h. LosesByName (FindsLeft (rows_to scopes.now)
        (place_to scopes.now) (class_key_of image.now).name) at (class_key_of key.now)
        (choice_of h)) }
{
    let found = left_found(scopes, &image.name)?;
    lost_class(at, key, found)
}

/// The choice for a class that is found as the first word, where no variable is.
fn leading(
    alloc: Global,
    scopes: &Scopes<'_>,
    at: u32,
    old: &Name,
    key: &ClassKey,
) -> Result<Choice, AllocError>
    requires { IsKept scopes.now }
    ensures { IfOk result (λ h. chosen.ClassSpells (rows_of scopes.now) (mapping_of scopes.now)
        (context_of scopes.now) at old.now (class_key_of key.now) (choice_of h)) }
{
    let image = class_to(&scopes.programs.keys, key)?;
    let first = first_taken(alloc, scopes, old, &image)?;
    match first {
        Some(choice) => Ok(choice),
        None => first_lost(scopes, at, key, &image),
    }
}

fn type_by_name(
    alloc: Global,
    scopes: &Scopes<'_>,
    at: u32,
    name: &Name,
) -> Result<Option<Choice>, AllocError>
    requires kept { IsKept scopes.now }
    requires free { FindsVariable (rows_of scopes.now) (scope_of (context_of scopes.now)) name.now
        nothing }
    ensures { IfOk result (λ o. chosen.ClassIsChosen (rows_of scopes.now) (mapping_of scopes.now)
        (context_of scopes.now) at name.now (option_map choice_of o)) }
{
    let table = scopes.programs.before;
    table.keeps_rows();
    lookups_are_exact();
    let found = type_named(table, &scopes.before, name)?;
    match class_found(&found) {
        None => Ok(None),
        Some(key) => Ok(Some(leading(alloc, scopes, at, name, key)?)),
    }
}

/// The choice for a class in front of a dot, where no variable has the name.
pub fn left_class(
    alloc: Global,
    scopes: &Scopes<'_>,
    at: u32,
    name: &Name,
) -> Result<Option<Choice>, AllocError>
    requires { IsKept scopes.now }
    ensures { IfOk result (λ o. chosen.ClassIsChosen (rows_of scopes.now) (mapping_of scopes.now)
        (context_of scopes.now) at name.now (option_map choice_of o)) }
{
    scopes.programs.before.keeps_rows();
    lookups_are_exact();
    let found = variable_of(scopes, name)?;
    if is_nothing(&found) {
        type_by_name(alloc, scopes, at, name)
    } else {
        Ok(None)
    }
}

/// The first spelling of a member class behind words that stand so that binds, if one does.
fn next_taken(
    alloc: Global,
    scopes: &Scopes<'_>,
    front: &InFront<'_>,
    old: &Name,
    on: &ClassKey,
    image: &ClassKey,
) -> Result<Option<Choice>, AllocError>
    requires { IsKept scopes.now }
    ensures { IfOk result (λ o. TakesByName (rows_of scopes.now) (mapping_of scopes.now)
        (context_of scopes.now) (FindsNext (rows_of scopes.now) (mapping_of scopes.now)
        (context_of scopes.now) (in_front_of front.now)) (Some (class_key_of on.now))
        (class_key_of image.now) old.now (option_map choice_of o)) }
{
    let words = next_named(scopes, front, &image.name)?;
    taken_in_front(alloc, scopes, old, &words, Some(on), image)
}

/// The loss of a member class behind words that stand so.
fn next_lost(
    scopes: &Scopes<'_>,
    front: &InFront<'_>,
    at: u32,
    key: &ClassKey,
    image: &ClassKey,
) -> Result<Choice, AllocError>
    requires { IsKept scopes.now }
    ensures { IfOk result (λ h. LosesByName (FindsNext (rows_of scopes.now)
        (mapping_of scopes.now) (context_of scopes.now) (in_front_of front.now)
        (class_key_of image.now).name) at (class_key_of key.now) (choice_of h)) }
{
    let found = next_found(scopes, front, &image.name)?;
    lost_class(at, key, found)
}

/// The choice for a member class behind words that stand so, where this class will stand.
fn leading_behind(
    alloc: Global,
    scopes: &Scopes<'_>,
    at: u32,
    on: &ClassKey,
    front: &InFront<'_>,
    old: &Name,
    key: &ClassKey,
) -> Result<Choice, AllocError>
    requires { IsKept scopes.now }
    ensures { IfOk result (λ h. chosen.MemberClassBehind (rows_of scopes.now)
        (mapping_of scopes.now) (context_of scopes.now) at (in_front_of front.now)
        (class_key_of on.now) old.now (class_key_of key.now) (choice_of h)) }
{
    let image = class_to(&scopes.programs.keys, key)?;
    let first = next_taken(alloc, scopes, front, old, on, &image)?;
    match first {
        Some(choice) => Ok(choice),
        None => next_lost(scopes, front, at, key, &image),
    }
}

/// The choice for a member class of the class that is found behind words that stand so.
fn leading_in(
    alloc: Global,
    scopes: &Scopes<'_>,
    at: u32,
    class: &ClassKey,
    front: &InFront<'_>,
    old: &Name,
    key: &ClassKey,
) -> Result<Choice, AllocError>
    requires { IsKept scopes.now }
    ensures { IfOk result (λ h. chosen.MemberClassSpells (rows_of scopes.now)
        (mapping_of scopes.now) (context_of scopes.now) at (in_front_of front.now)
        (class_key_of class.now) old.now (class_key_of key.now) (choice_of h)) }
{
    let on = class_to(&scopes.programs.keys, class)?;
    leading_behind(alloc, scopes, at, &on, front, old, key)
}

fn member_by_name(
    alloc: Global,
    scopes: &Scopes<'_>,
    at: u32,
    class: &ClassKey,
    front: &InFront<'_>,
    name: &Name,
) -> Result<Option<Choice>, AllocError>
    requires kept { IsKept scopes.now }
    requires free { FindsFieldIn (rows_of scopes.now) (scope_of (context_of scopes.now))
        (class_key_of class.now) name.now nothing }
    ensures { IfOk result (λ o. chosen.MemberClassIsChosen (rows_of scopes.now)
        (mapping_of scopes.now) (context_of scopes.now) at (in_front_of front.now)
        (class_key_of class.now) name.now (option_map choice_of o)) }
{
    let table = scopes.programs.before;
    table.keeps_rows();
    lookups_are_exact();
    let found = member_type(table, &scopes.before, class, name)?;
    match class_found(&found) {
        None => Ok(None),
        Some(key) => Ok(Some(leading_in(alloc, scopes, at, class, front, name, key)?)),
    }
}

/// The choice for a member class of the class in front of a further dot, where no field has the
/// name. The words of the class stand so in the new program.
pub fn member_class(
    alloc: Global,
    scopes: &Scopes<'_>,
    at: u32,
    class: &ClassKey,
    front: &InFront<'_>,
    name: &Name,
) -> Result<Option<Choice>, AllocError>
    requires { IsKept scopes.now }
    ensures { IfOk result (λ o. chosen.MemberClassIsChosen (rows_of scopes.now)
        (mapping_of scopes.now) (context_of scopes.now) at (in_front_of front.now)
        (class_key_of class.now) name.now (option_map choice_of o)) }
{
    let table = scopes.programs.before;
    table.keeps_rows();
    lookups_are_exact();
    let found = field_of(table, &scopes.before, class, name)?;
    if is_nothing(&found) {
        member_by_name(alloc, scopes, at, class, front, name)
    } else {
        Ok(None)
    }
}

// ---- with no other spelling

fn qualifying(
    alloc: Global,
    scopes: &Scopes<'_>,
    at: u32,
    old: &Name,
    key: &ClassKey,
) -> Result<Choice, AllocError>
    requires { IsKept scopes.now }
    ensures { IfOk result (λ h. chosen.QualifierSpells (rows_of scopes.now) (mapping_of scopes.now)
        (context_of scopes.now) at old.now (class_key_of key.now) (choice_of h)) }
{
    let table = scopes.programs.after;
    table.keeps_rows();
    lookups_are_exact();
    let image = class_to(&scopes.programs.keys, key)?;
    let found = type_named(table, &scopes.after, &image.name)?;
    renamed_or_lost(alloc, at, old, key, &image, found)
}

/// The choice for the class in front of the dot in a type.
pub fn qualifier(
    alloc: Global,
    scopes: &Scopes<'_>,
    at: u32,
    name: &Name,
) -> Result<Option<Choice>, AllocError>
    requires { IsKept scopes.now }
    ensures { IfOk result (λ o. chosen.QualifierIsChosen (rows_of scopes.now)
        (mapping_of scopes.now) (context_of scopes.now) at name.now (option_map choice_of o)) }
{
    let table = scopes.programs.before;
    table.keeps_rows();
    lookups_are_exact();
    let found = type_named(table, &scopes.before, name)?;
    match class_found(&found) {
        None => Ok(None),
        Some(key) => Ok(Some(qualifying(alloc, scopes, at, name, key)?)),
    }
}

/// The class of the name that is no member class.
fn top_found(alloc: Global, table: &Table, name: &Name) -> Result<Found, AllocError>
    ensures { IfOk result (λ f. TopFinds table.now name.now (found_of f)) }
{
    table.keeps_rows();
    match table.top_number(name) {
        None => Ok(Found::Nothing),
        Some(_) => {
            let name = Name::new(alloc, name.as_str())?;
            Ok(Found::One(Decl::Class(ClassKey { outer: None, name })))
        }
    }
}

fn superclass_choice(
    alloc: Global,
    tables: &Tables<'_>,
    at: u32,
    old: &Name,
    key: &ClassKey,
) -> Result<Choice, AllocError>
    requires { AreTables tables.now }
    ensures { IfOk result (λ h. chosen.TopParentSpells tables.now.before.now
        (mapping_in tables.now) at old.now (class_key_of key.now) (choice_of h)) }
{
    let image = class_to(&tables.keys, key)?;
    let found = top_found(alloc, tables.after, &image.name)?;
    renamed_or_lost(alloc, at, old, key, &image, found)
}

/// The choice for the superclass of a top-level class.
pub fn top_parent(
    alloc: Global,
    tables: &Tables<'_>,
    at: u32,
    name: &Name,
) -> Result<Option<Choice>, AllocError>
    requires { AreTables tables.now }
    ensures { IfOk result (λ o. chosen.TopParentIsChosen tables.now.before.now
        (mapping_in tables.now) at name.now (option_map choice_of o)) }
{
    let found = top_found(alloc, tables.before, name)?;
    match class_found(&found) {
        None => Ok(None),
        Some(key) => Ok(Some(superclass_choice(alloc, tables, at, name, key)?)),
    }
}
