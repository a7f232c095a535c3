//! The first spelling that binds.
ghost use Rattle.std.specs.Prelude.{◌≡◌, ◌↔◌, IsTrue, IfOk, option_map};
ghost use Rattle.jr_table.specs.KeyView.{decl_of};
ghost use Rattle.jr_lookup.specs.ScopeView.{scope_of};
ghost use Rattle.jr_spell.specs.declared.spellings.Form.TheVariants as variant;
ghost use Rattle.jr_spell.specs.ReferenceView.{reference_of, spelling_of};
ghost use Rattle.jr_spell.specs.Spellings as table;
ghost use Rattle.jr_spell.specs.Taken.{IsSpelled};

use crate::binding::binds;
use crate::references::{RefForm, Reference};
use crate::spellings::{Form, Spelling};
use crate::texts::text;
use jr_lookup::Scope;
use jr_table::{Decl, Table};
use std::alloc::{AllocError, Global};

/// A row that is for fields.
fn to_field(row: &'static [Form], target: &Decl) -> &'static [Form]
    ensures { result.now ≡ table.to_field row.now (decl_of target.now) }
{
    match target {
        Decl::Field(_) => row,
        Decl::Class(_) => &[],
        Decl::Method(_) => &[],
        Decl::Ctor(_) => &[],
        Decl::Local(_) => &[],
    }
}

/// A row that is for methods.
fn to_method(row: &'static [Form], target: &Decl) -> &'static [Form]
    ensures { result.now ≡ table.to_method row.now (decl_of target.now) }
{
    match target {
        Decl::Method(_) => row,
        Decl::Class(_) => &[],
        Decl::Field(_) => &[],
        Decl::Ctor(_) => &[],
        Decl::Local(_) => &[],
    }
}

/// A row that is for both.
fn to_member(row: &'static [Form], target: &Decl) -> &'static [Form]
    ensures { result.now ≡ table.to_member row.now (decl_of target.now) }
{
    match target {
        Decl::Field(_) => row,
        Decl::Method(_) => row,
        Decl::Class(_) => &[],
        Decl::Ctor(_) => &[],
        Decl::Local(_) => &[],
    }
}

/// A row that is for classes.
fn to_class(row: &'static [Form], target: &Decl) -> &'static [Form]
    ensures { result.now ≡ table.to_class row.now (decl_of target.now) }
{
    match target {
        Decl::Class(_) => row,
        Decl::Field(_) => &[],
        Decl::Method(_) => &[],
        Decl::Ctor(_) => &[],
        Decl::Local(_) => &[],
    }
}

/// A row that is for locals, methods and constructors.
fn to_other(row: &'static [Form], target: &Decl) -> &'static [Form]
    ensures { result.now ≡ table.to_other row.now (decl_of target.now) }
{
    match target {
        Decl::Local(_) => row,
        Decl::Method(_) => row,
        Decl::Ctor(_) => row,
        Decl::Class(_) => &[],
        Decl::Field(_) => &[],
    }
}

/// How a reference can be spelled, in the order in which it is tried.
pub(crate) fn forms(form: RefForm, target: &Decl) -> &'static [Form]
    ensures { result.now ≡ table.forms form (decl_of target.now) }
{
    match form {
        RefForm::FieldSimple => to_field(
            &[
                Form::Asked,
                Form::OnThis,
                Form::OnSuper,
                Form::OnCastThis,
                Form::OnClass,
                Form::OnOuterClass,
            ],
            target,
        ),
        RefForm::FieldOn => to_field(&[Form::Asked, Form::OnCastOperand], target),
        RefForm::FieldSuper => to_field(&[Form::Asked, Form::OnCastThis], target),
        RefForm::ThroughClass => {
            to_member(&[Form::Asked, Form::OnClass, Form::OnOuterClass], target)
        }
        RefForm::MethodSimple => to_method(
            &[Form::Asked, Form::OnThis, Form::OnClass, Form::OnOuterClass],
            target,
        ),
        RefForm::MethodOn => to_method(&[Form::Asked, Form::OnCastOperand], target),
        RefForm::ClassName => to_class(&[Form::Asked, Form::Class, Form::OuterClass], target),
        RefForm::ClassInFront => to_class(
            &[Form::Asked, Form::ClassInFront, Form::OuterClassInFront],
            target,
        ),
        RefForm::AsAsked => to_other(&[Form::Asked], target),
    }
}

/// Whether a form is the asked one.
fn is_asked(form: Form) -> bool
    ensures { IsTrue result ↔ (form ≡ variant.Asked) }
{
    form == Form::Asked
}

/// The spelling of a form.
fn spelling(
    alloc: Global,
    reference: &Reference,
    target: &Decl,
    form: Form,
) -> Result<Spelling, AllocError>
    ensures text { IfOk result (λ y. y.text
        ≡ table.text_of (reference_of reference.now) (decl_of target.now) form) }
    ensures asked { IfOk result (λ y. IsTrue y.is_asked ↔ (form ≡ variant.Asked)) }
{
    let text = text(alloc, reference, target, form)?;
    Ok(Spelling {
        text,
        is_asked: is_asked(form),
    })
}

/// The first spelling of a kept reference that binds to its declaration at a place of the scope,
/// in the program of the table; `None` exactly where none binds.
///
/// A spelling binds where its lookup gives the declaration, it breaks none of the rules on static
/// contexts, on static members through values and on instance members through classes, and each
/// `K` and `Outer.K` of the table finds that class itself and no variable, field or other class. A
/// cast is tried only where its class is the operand's or a superclass of it.
pub fn respell(
    alloc: Global,
    table: &Table,
    scope: &Scope,
    reference: &Reference,
    target: &Decl,
) -> Result<Option<Spelling>, AllocError>
    ensures { IfOk result (λ o. IsSpelled table.now (scope_of scope.now)
        (reference_of reference.now) (decl_of target.now) (option_map spelling_of o)) }
{
    for form in forms(reference.form, target) {
        if binds(alloc, table, scope, reference, target, *form)? {
            return Ok(Some(spelling(alloc, reference, target, *form)?));
        }
    }
    Ok(None)
}
