//! The spelling that is taken, as a choice.
ghost use Rattle.std.specs.Prelude.{◌≡◌, None, IfOk, IfSome, option_map};
ghost use Rattle.jr_table.specs.Decls.{class_decl};
ghost use Rattle.jr_table.specs.Entries.{class_of};
ghost use Rattle.jr_table.specs.TypeView.{class_key_of};
ghost use Rattle.jr_table.specs.KeyView.{decl_of};
ghost use Rattle.jr_table.specs.FoundView.{found_of};
ghost use Rattle.jr_spell.specs.ReferenceView.{reference_of};
ghost use Rattle.jr_spell.specs.Taken.{IsTaken, NoneBinds};
ghost use Rattle.jr_rewrite.specs.Respellings as respellings;
ghost use Rattle.jr_rewrite.specs.RespellingView.{front_view};
ghost use Rattle.jr_images.specs.Spelling as pure;
ghost use Rattle.jr_new_words.specs.ChoiceView.{front_of, lost_of, choice_of};
ghost use Rattle.jr_new_words.specs.Scopes.{IsKept, rows_to, place_to};
ghost use Rattle.jr_new_words.specs.Taking.{Takes, asked_of};

use crate::asking::Asked;
use crate::choices::{Choice, Chosen, ChosenFront, Lost};
use crate::nearby::near;
use crate::scopes::{Scopes, class_of_member};
use jr_ast::Name;
use jr_rewrite::Front;
use jr_spell::{Form, Reference, take_form};
use jr_table::{ClassKey, Decl, Found, lookups_are_exact};
use std::alloc::{AllocError, Global};

/// The same, with owned texts.
fn own_front(alloc: Global, front: &Front<'_>) -> Result<ChosenFront, AllocError>
    ensures { IfOk result (λ f. front_of f ≡ front_view front.now) }
{
    match *front {
        Front::Same => Ok(ChosenFront::Same),
        Front::Alone => Ok(ChosenFront::Alone),
        Front::ByThis => Ok(ChosenFront::ByThis),
        Front::BySuper => Ok(ChosenFront::BySuper),
        Front::ByCastThis(class) => Ok(ChosenFront::ByCastThis(Name::new(alloc, class)?)),
        Front::ByClass(class) => Ok(ChosenFront::ByClass(Name::new(alloc, class)?)),
        Front::ByOuterClass(outer, class) => {
            let outer = Name::new(alloc, outer)?;
            let class = Name::new(alloc, class)?;
            Ok(ChosenFront::ByOuterClass(outer, class))
        }
        Front::ByCast(class) => Ok(ChosenFront::ByCast(Name::new(alloc, class)?)),
    }
}

/// The word with this in front of it.
fn respelling(alloc: Global, name: &Name, front: &Front<'_>) -> Result<Choice, AllocError>
    ensures { IfOk result (λ h. choice_of h ≡ pure.respelled name.now (front_view front.now)) }
{
    let text = Name::new(alloc, name.as_str())?;
    let front = own_front(alloc, front)?;
    Ok(Choice::Becomes(Chosen { text, front }))
}

/// Another name alone, if it is another.
pub(crate) fn renaming(alloc: Global, old: &Name, name: &Name) -> Result<Choice, AllocError>
    ensures { IfOk result (λ h. choice_of h ≡ pure.renamed old.now name.now) }
{
    if old == name {
        Ok(Choice::Stays)
    } else {
        respelling(alloc, name, &Front::Same)
    }
}

fn loss(at: u32, declaration: Decl, found: Found) -> Lost
    ensures { lost_of result
        ≡ record { at = at; declaration = decl_of declaration; found = found_of found } }
{
    Lost {
        at,
        declaration,
        found,
    }
}

/// So that a path that ends early doesn't drop it in pieces.
pub(crate) fn forget(found: Found) {
    drop(found)
}

fn loses(lost: Lost) -> Choice
    ensures { choice_of result ≡ respellings.loses (lost_of lost) }
{
    Choice::Loses(lost)
}

/// The loss of a declaration, with what is found in its place.
pub(crate) fn loss_of(at: u32, declaration: &Decl, found: Found) -> Result<Choice, AllocError>
    ensures { IfOk result (λ h. choice_of h ≡ respellings.loses (record
        { at = at; declaration = decl_of declaration.now; found = found_of found })) }
{
    match declaration.copy() {
        Ok(declaration) => Ok(loses(loss(at, declaration, found))),
        Err(error) => {
            forget(found);
            Err(error)
        }
    }
}

pub(crate) fn as_decl(key: ClassKey) -> Decl
    ensures { decl_of result ≡ class_decl (class_key_of key) }
{
    Decl::Class(key)
}

/// The loss of a class.
pub(crate) fn lost_class(at: u32, key: &ClassKey, found: Found) -> Result<Choice, AllocError>
    ensures { IfOk result (λ h. choice_of h ≡ respellings.loses (record
        { at = at; declaration = class_decl (class_key_of key.now); found = found_of found })) }
{
    match key.copy() {
        Ok(key) => Ok(loses(loss(at, as_decl(key), found))),
        Err(error) => {
            forget(found);
            Err(error)
        }
    }
}

/// `Outer.K.`, of a class that is a member of another.
fn outer_front(class: &ClassKey) -> Front<'_>
    ensures { front_view result ≡ pure.outer_front (class_key_of class.now) }
{
    match &class.outer {
        None => Front::ByClass(class.name.as_str()),
        Some(outer) => Front::ByOuterClass(outer.as_str(), class.name.as_str()),
    }
}

/// `Outer.`, of a class that is a member of another.
fn outer_type(class: &ClassKey) -> Front<'_>
    ensures { front_view result ≡ pure.outer_type (class_key_of class.now) }
{
    match &class.outer {
        None => Front::Alone,
        Some(outer) => Front::ByClass(outer.as_str()),
    }
}

/// What a form makes of a word, where the class declares the declaration.
fn by_form(
    alloc: Global,
    old: &Name,
    name: &Name,
    class: &ClassKey,
    form: Form,
) -> Result<Choice, AllocError>
    ensures { IfOk result (λ h. choice_of h
        ≡ pure.spelled old.now name.now (class_key_of class.now) form) }
{
    match form {
        Form::Asked => renaming(alloc, old, name),
        Form::OnThis => respelling(alloc, name, &Front::ByThis),
        Form::OnSuper => respelling(alloc, name, &Front::BySuper),
        Form::OnCastThis => respelling(alloc, name, &Front::ByCastThis(class.name.as_str())),
        Form::OnCastOperand => respelling(alloc, name, &Front::ByCast(class.name.as_str())),
        Form::OnClass => respelling(alloc, name, &Front::ByClass(class.name.as_str())),
        Form::OnOuterClass => respelling(alloc, name, &outer_front(class)),
        Form::Class => respelling(alloc, &class.name, &Front::Alone),
        Form::OuterClass => respelling(alloc, &class.name, &outer_type(class)),
        Form::ClassInFront => respelling(alloc, &class.name, &Front::Alone),
        Form::OuterClassInFront => respelling(alloc, &class.name, &outer_type(class)),
    }
}

/// The class that declares a declaration; of a class that class itself.
pub(crate) fn declaring_class(decl: &Decl) -> &ClassKey
    ensures { class_key_of result.now ≡ class_of (decl_of decl.now) }
{
    match decl {
        Decl::Class(key) => key,
        Decl::Field(key) => &key.class,
        Decl::Method(key) => &key.class,
        Decl::Ctor(key) => &key.class,
        Decl::Local(key) => class_of_member(&key.member),
    }
}

/// The form of the first spelling that binds at the place in the new program, if one does.
fn form_taken(
    alloc: Global,
    scopes: &Scopes<'_>,
    reference: &Reference,
    target: &Decl,
) -> Result<Option<Form>, AllocError>
    requires { IsKept scopes.now }
    ensures some { IfOk result (λ o. IfSome o (IsTaken (rows_to scopes.now) (place_to scopes.now)
        (reference_of reference.now) (decl_of target.now))) }
    ensures none { IfOk result (λ o. o ≡ None → NoneBinds (rows_to scopes.now)
        (place_to scopes.now) (reference_of reference.now) (decl_of target.now)) }
{
    let table = scopes.programs.after;
    table.keeps_rows();
    lookups_are_exact();
    let scope = near(alloc, scopes, &reference.asked, declaring_class(target))?;
    take_form(alloc, table, &scope, reference, target)
}

/// The choice of the first spelling that binds to the declaration, if one does.
pub(crate) fn choose(
    alloc: Global,
    scopes: &Scopes<'_>,
    asked: &Asked,
    target: &Decl,
    old: &Name,
) -> Result<Option<Choice>, AllocError>
    requires { IsKept scopes.now }
    ensures { IfOk result (λ o. Takes (rows_to scopes.now) (place_to scopes.now)
        (asked_of asked.now (decl_of target.now)) old.now (option_map choice_of o)) }
{
    let first = form_taken(alloc, scopes, &asked.reference, target)?;
    match first {
        None => Ok(None),
        Some(form) => {
            let class = declaring_class(target);
            Ok(Some(by_form(alloc, old, &asked.name, class, form)?))
        }
    }
}
