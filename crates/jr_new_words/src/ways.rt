//! The ways in which references lead to their declarations.
ghost use Rattle.std.specs.Prelude.{◌≡◌, IfOk, option_map, Some};
ghost use Rattle.jr_table.specs.TypeView.{class_key_of, ty_of};
ghost use Rattle.jr_table.specs.KeyView.{decl_of};
ghost use Rattle.jr_spell.specs.ReferenceView as view;
ghost use Rattle.jr_images.specs.Spelling.{operand_of, on_type, dotted};
ghost use Rattle.jr_new_words.specs.Ways as pure;

use crate::fronts::{InFront, named_copy};
use jr_ast::Name;
use jr_spell::{Operand, RefForm};
use jr_table::{ClassKey, Decl, Ty};
use std::alloc::{AllocError, Global};

/// How a name is looked up, and how it is asked.
#[derive(Clone, Copy)]
pub(crate) enum Way<'a> {
    /// A variable by its simple name.
    Local,
    OwnField,
    /// On a value of the class, and on one of a type that is no class.
    FieldOn(&'a ClassKey),
    FieldOnNone(&'a Ty),
    /// Through the class, whose words stand so.
    FieldThrough(InFront<'a>, &'a ClassKey),
    /// Behind `super`.
    FieldAbove,
    /// A call without a target.
    MethodNamed,
    MethodOn(&'a ClassKey),
    MethodOnNone(&'a Ty),
    MethodThrough(InFront<'a>, &'a ClassKey),
    MethodAbove,
    /// A creation of the class, and `super(..)`.
    CtorOf(&'a ClassKey),
    CtorAbove,
    /// A class as a type, by its name alone and behind that of another.
    TypeNamed,
    TypeBehind(&'a Name),
}

/// Whether a simple name is looked up as a variable.
pub(crate) fn is_simple(way: &Way<'_>) -> bool
    ensures { result ≡ pure.is_simple (pure.way_of way.now) }
{
    match *way {
        Way::Local => true,
        Way::OwnField => true,
        Way::FieldOn(_) => false,
        Way::FieldOnNone(_) => false,
        Way::FieldThrough(_, _) => false,
        Way::FieldAbove => false,
        Way::MethodNamed => false,
        Way::MethodOn(_) => false,
        Way::MethodOnNone(_) => false,
        Way::MethodThrough(_, _) => false,
        Way::MethodAbove => false,
        Way::CtorOf(_) => false,
        Way::CtorAbove => false,
        Way::TypeNamed => false,
        Way::TypeBehind(_) => false,
    }
}

pub(crate) fn is_local(decl: &Decl) -> bool
    ensures { result ≡ pure.is_local (decl_of decl.now) }
{
    match decl {
        Decl::Class(_) => false,
        Decl::Field(_) => false,
        Decl::Method(_) => false,
        Decl::Ctor(_) => false,
        Decl::Local(_) => true,
    }
}

fn is_class(decl: &Decl) -> bool
    ensures { result ≡ pure.is_class (decl_of decl.now) }
{
    match decl {
        Decl::Class(_) => true,
        Decl::Field(_) => false,
        Decl::Method(_) => false,
        Decl::Ctor(_) => false,
        Decl::Local(_) => false,
    }
}

fn is_field(decl: &Decl) -> bool
    ensures { result ≡ pure.is_field (decl_of decl.now) }
{
    match decl {
        Decl::Class(_) => false,
        Decl::Field(_) => true,
        Decl::Method(_) => false,
        Decl::Ctor(_) => false,
        Decl::Local(_) => false,
    }
}

fn is_method(decl: &Decl) -> bool
    ensures { result ≡ pure.is_method (decl_of decl.now) }
{
    match decl {
        Decl::Class(_) => false,
        Decl::Field(_) => false,
        Decl::Method(_) => true,
        Decl::Ctor(_) => false,
        Decl::Local(_) => false,
    }
}

fn is_ctor(decl: &Decl) -> bool
    ensures { result ≡ pure.is_ctor (decl_of decl.now) }
{
    match decl {
        Decl::Class(_) => false,
        Decl::Field(_) => false,
        Decl::Method(_) => false,
        Decl::Ctor(_) => true,
        Decl::Local(_) => false,
    }
}

/// Whether the way leads to declarations of this kind.
pub(crate) fn leads_to(way: &Way<'_>, decl: &Decl) -> bool
    ensures { result ≡ pure.leads_to (pure.way_of way.now) (decl_of decl.now) }
{
    match *way {
        Way::Local => is_local(decl),
        Way::OwnField => is_field(decl),
        Way::FieldOn(_) => is_field(decl),
        Way::FieldOnNone(_) => is_field(decl),
        Way::FieldThrough(_, _) => is_field(decl),
        Way::FieldAbove => is_field(decl),
        Way::MethodNamed => is_method(decl),
        Way::MethodOn(_) => is_method(decl),
        Way::MethodOnNone(_) => is_method(decl),
        Way::MethodThrough(_, _) => is_method(decl),
        Way::MethodAbove => is_method(decl),
        Way::CtorOf(_) => is_ctor(decl),
        Way::CtorAbove => is_ctor(decl),
        Way::TypeNamed => is_class(decl),
        Way::TypeBehind(_) => is_class(decl),
    }
}

/// The row of the table of spellings.
pub(crate) fn form_of(way: &Way<'_>) -> RefForm
    ensures { result ≡ pure.form_of (pure.way_of way.now) }
{
    match *way {
        Way::Local => RefForm::AsAsked,
        Way::OwnField => RefForm::FieldSimple,
        Way::FieldOn(_) => RefForm::FieldOn,
        Way::FieldOnNone(_) => RefForm::FieldOn,
        Way::FieldThrough(_, _) => RefForm::ThroughClass,
        Way::FieldAbove => RefForm::FieldSuper,
        Way::MethodNamed => RefForm::MethodSimple,
        Way::MethodOn(_) => RefForm::MethodOn,
        Way::MethodOnNone(_) => RefForm::MethodOn,
        Way::MethodThrough(_, _) => RefForm::ThroughClass,
        Way::MethodAbove => RefForm::AsAsked,
        Way::CtorOf(_) => RefForm::AsAsked,
        Way::CtorAbove => RefForm::AsAsked,
        Way::TypeNamed => RefForm::ClassName,
        Way::TypeBehind(_) => RefForm::ClassName,
    }
}

/// `front.back`
pub(crate) fn dotted_name(alloc: Global, front: &Name, back: &str) -> Result<Name, AllocError>
    ensures { IfOk result (λ n. n ≡ dotted front.now back.now) }
{
    let front = front.as_str();
    let text = format!(in alloc; "{front}.{back}")?;
    Name::new(alloc, text.as_str())
}

/// What is asked, the whole of it but for arguments.
pub(crate) fn text_by(alloc: Global, way: &Way<'_>, name: &str) -> Result<Name, AllocError>
    ensures { IfOk result (λ n. n ≡ pure.text_by (pure.way_of way.now) name.now) }
{
    match *way {
        Way::Local => Name::new(alloc, name),
        Way::OwnField => Name::new(alloc, name),
        Way::FieldOn(_) => Name::new(alloc, name),
        Way::FieldOnNone(_) => Name::new(alloc, name),
        Way::FieldThrough(_, _) => Name::new(alloc, name),
        Way::FieldAbove => Name::new(alloc, name),
        Way::MethodNamed => Name::new(alloc, name),
        Way::MethodOn(_) => Name::new(alloc, name),
        Way::MethodOnNone(_) => Name::new(alloc, name),
        Way::MethodThrough(_, _) => Name::new(alloc, name),
        Way::MethodAbove => Name::new(alloc, name),
        Way::CtorOf(_) => Name::new(alloc, name),
        Way::CtorAbove => Name::new(alloc, name),
        Way::TypeNamed => Name::new(alloc, name),
        Way::TypeBehind(front) => dotted_name(alloc, front, name),
    }
}

/// An operand of a class.
pub(crate) fn on(alloc: Global, class: &ClassKey) -> Result<Option<Operand>, AllocError>
    ensures { IfOk result (λ o.
        option_map view.operand_of o ≡ operand_of (class_key_of class.now)) }
{
    let text = Name::new(alloc, "")?;
    let ty = Ty::Class(class.copy()?);
    Ok(Some(Operand { ty, text }))
}

/// An operand of a type.
fn on_type(alloc: Global, ty: &Ty) -> Result<Option<Operand>, AllocError>
    ensures { IfOk result (λ o. option_map view.operand_of o ≡ on_type (ty_of ty.now)) }
{
    let text = Name::new(alloc, "")?;
    let ty = ty.copy()?;
    Ok(Some(Operand { ty, text }))
}

/// How a field of a value of a type is looked up and asked.
pub(crate) fn field_on_type(ty: &Ty) -> Way<'_>
    ensures { pure.way_of result ≡ pure.field_on_type (ty_of ty.now) }
{
    match ty {
        Ty::Class(class) => Way::FieldOn(class),
        Ty::Int => Way::FieldOnNone(ty),
        Ty::Boolean => Way::FieldOnNone(ty),
        Ty::Void => Way::FieldOnNone(ty),
        Ty::Null => Way::FieldOnNone(ty),
    }
}

/// And a method.
pub(crate) fn method_on_type(ty: &Ty) -> Way<'_>
    ensures { pure.way_of result ≡ pure.method_on_type (ty_of ty.now) }
{
    match ty {
        Ty::Class(class) => Way::MethodOn(class),
        Ty::Int => Way::MethodOnNone(ty),
        Ty::Boolean => Way::MethodOnNone(ty),
        Ty::Void => Way::MethodOnNone(ty),
        Ty::Null => Way::MethodOnNone(ty),
    }
}

/// What stands in front of the dot.
pub(crate) fn operand_by(alloc: Global, way: &Way<'_>) -> Result<Option<Operand>, AllocError>
    ensures { IfOk result (λ o.
        option_map view.operand_of o ≡ pure.operand_by (pure.way_of way.now)) }
{
    match *way {
        Way::Local => Ok(None),
        Way::OwnField => Ok(None),
        Way::FieldOn(class) => on(alloc, class),
        Way::FieldOnNone(ty) => on_type(alloc, ty),
        Way::FieldThrough(_, class) => on(alloc, class),
        Way::FieldAbove => Ok(None),
        Way::MethodNamed => Ok(None),
        Way::MethodOn(class) => on(alloc, class),
        Way::MethodOnNone(ty) => on_type(alloc, ty),
        Way::MethodThrough(_, class) => on(alloc, class),
        Way::MethodAbove => Ok(None),
        Way::CtorOf(class) => on(alloc, class),
        Way::CtorAbove => Ok(None),
        Way::TypeNamed => Ok(None),
        Way::TypeBehind(_) => Ok(None),
    }
}

/// The class that words in front of the dot find, if they find one.
pub(crate) fn front_by(way: &Way<'_>) -> Result<Option<ClassKey>, AllocError>
    ensures { IfOk result (λ o.
        option_map class_key_of o ≡ pure.front_by (pure.way_of way.now)) }
{
    match *way {
        Way::Local => Ok(None),
        Way::OwnField => Ok(None),
        Way::FieldOn(_) => Ok(None),
        Way::FieldOnNone(_) => Ok(None),
        Way::FieldThrough(front, _) => named_copy(&front),
        Way::FieldAbove => Ok(None),
        Way::MethodNamed => Ok(None),
        Way::MethodOn(_) => Ok(None),
        Way::MethodOnNone(_) => Ok(None),
        Way::MethodThrough(front, _) => named_copy(&front),
        Way::MethodAbove => Ok(None),
        Way::CtorOf(_) => Ok(None),
        Way::CtorAbove => Ok(None),
        Way::TypeNamed => Ok(None),
        Way::TypeBehind(_) => Ok(None),
    }
}
