//! Whether a spelling binds.
ghost use Rattle.std.specs.Prelude.{◌≡◌, ◌↔◌, IsTrue, IfOk, Some, None, option_map};
ghost use Rattle.jr_table.specs.TypeView.{class_key_of, ty_of};
ghost use Rattle.jr_table.specs.KeyView.{decl_of};
ghost use Rattle.jr_table.specs.Entries.{class_of};
ghost use Rattle.jr_lookup.specs.ScopeView.{scope_of};
ghost use Rattle.jr_spell.specs.declared.references.RefForm.TheVariants as ref;
ghost use Rattle.jr_spell.specs.References.{class_of_type, class_of_operand};
ghost use Rattle.jr_spell.specs.ReferenceView.{operand_of, reference_of};
ghost use Rattle.jr_spell.specs.Binds.{ThroughCast, ThroughSuperclass, ThroughOperand};
ghost use Rattle.jr_spell.specs.Binds.{BindsOnThis, BindsOnSuper, BindsOnOperand};
ghost use Rattle.jr_spell.specs.Binds.{BindsOnCastThis, BindsOnCastOperand, BindsOnAskedClass};
ghost use Rattle.jr_spell.specs.Binds.{BindsOnClass, BindsOnOuterClass, BindsAsClass};
ghost use Rattle.jr_spell.specs.Binds.{BindsAsOuterClass, BindsAsOuterInFront};
ghost use Rattle.jr_spell.specs.Binds.{BehindOperand, BindsAskedInFront};
ghost use Rattle.jr_spell.specs.Binds.{BindsConstructor, BindsAlone};
ghost use Rattle.jr_spell.specs.Binds.{BindsAsked, Binds};

use crate::classes::{is_type, is_type_in, is_type_text, leads_dotted, leads_in, leads_simply};
use crate::declaring::declaring_class;
use crate::members::{is_ctor, is_method_named, is_on_class, is_on_value};
use crate::references::{RefForm, Reference};
use crate::spellings::Form;
use crate::superclasses::superclass;
use crate::variables::is_variable;
use jr_lookup::Scope;
use jr_table::{ClassKey, Decl, Table, Ty};
use std::alloc::{AllocError, Global};

fn class_of_type(ty: &Ty) -> Option<&ClassKey>
    ensures { option_map (λ k. class_key_of k.now) result ≡ class_of_type (ty_of ty.now) }
{
    match ty {
        Ty::Int => None,
        Ty::Boolean => None,
        Ty::Void => None,
        Ty::Null => None,
        Ty::Class(key) => Some(key),
    }
}

/// The class of the operand, if there is an operand of a class's type.
fn class_of_operand(reference: &Reference) -> Option<&ClassKey>
    ensures { option_map (λ k. class_key_of k.now) result
        ≡ class_of_operand (reference_of reference.now).operand }
{
    match &reference.operand {
        None => None,
        Some(operand) => class_of_type(&operand.ty),
    }
}

/// Whether `this.x` binds.
fn on_this(
    alloc: Global,
    table: &Table,
    scope: &Scope,
    reference: &Reference,
    target: &Decl,
) -> Result<bool, AllocError>
    ensures { IfOk result (λ b. IsTrue b ↔ BindsOnThis table.now (scope_of scope.now)
        (reference_of reference.now) (decl_of target.now)) }
{
    let has_object = !scope.is_static;
    if has_object {
        is_on_value(alloc, table, scope, &reference.args, &scope.class, target)
    } else {
        Ok(false)
    }
}

/// Whether the member of the superclass, if there is one, is the declaration, and no static one.
fn on_superclass(
    alloc: Global,
    table: &Table,
    scope: &Scope,
    reference: &Reference,
    target: &Decl,
) -> Result<bool, AllocError>
    ensures { IfOk result (λ b. IsTrue b ↔ ThroughSuperclass table.now (scope_of scope.now)
        (reference_of reference.now) (decl_of target.now)) }
{
    table.keeps_rows();
    match superclass(table, &scope.class) {
        None => Ok(false),
        Some(parent) => is_on_value(alloc, table, scope, &reference.args, parent, target),
    }
}

/// Whether `super.x` binds.
fn on_super(
    alloc: Global,
    table: &Table,
    scope: &Scope,
    reference: &Reference,
    target: &Decl,
) -> Result<bool, AllocError>
    ensures { IfOk result (λ b. IsTrue b ↔ BindsOnSuper table.now (scope_of scope.now)
        (reference_of reference.now) (decl_of target.now)) }
{
    if scope.is_static {
        Ok(false)
    } else {
        on_superclass(alloc, table, scope, reference, target)
    }
}

/// Whether `e.x` binds.
fn on_operand(
    alloc: Global,
    table: &Table,
    scope: &Scope,
    reference: &Reference,
    target: &Decl,
) -> Result<bool, AllocError>
    ensures { IfOk result (λ b. IsTrue b ↔ BindsOnOperand table.now (scope_of scope.now)
        (reference_of reference.now) (decl_of target.now)) }
{
    match class_of_operand(reference) {
        None => Ok(false),
        Some(class) => is_on_value(alloc, table, scope, &reference.args, class, target),
    }
}

/// Whether a value of the class that is cast to the declaring class has the declaration.
fn on_cast(
    alloc: Global,
    table: &Table,
    scope: &Scope,
    reference: &Reference,
    class: &ClassKey,
    target: &Decl,
) -> Result<bool, AllocError>
    ensures { IfOk result (λ b. IsTrue b ↔ ThroughCast table.now (scope_of scope.now)
        (reference_of reference.now).args (class_key_of class.now) (decl_of target.now)) }
{
    let declaring = declaring_class(target);
    let fits = table.is_subclass(class, declaring)
        & is_type(table, scope, &declaring.name, declaring);
    if fits {
        is_on_value(alloc, table, scope, &reference.args, declaring, target)
    } else {
        Ok(false)
    }
}

/// Whether `((K) this).x` binds.
fn on_cast_this(
    alloc: Global,
    table: &Table,
    scope: &Scope,
    reference: &Reference,
    target: &Decl,
) -> Result<bool, AllocError>
    ensures { IfOk result (λ b. IsTrue b ↔ BindsOnCastThis table.now (scope_of scope.now)
        (reference_of reference.now) (decl_of target.now)) }
{
    if scope.is_static {
        Ok(false)
    } else {
        on_cast(alloc, table, scope, reference, &scope.class, target)
    }
}

/// Whether `((K) e).x` binds.
fn on_cast_operand(
    alloc: Global,
    table: &Table,
    scope: &Scope,
    reference: &Reference,
    target: &Decl,
) -> Result<bool, AllocError>
    ensures { IfOk result (λ b. IsTrue b ↔ BindsOnCastOperand table.now (scope_of scope.now)
        (reference_of reference.now) (decl_of target.now)) }
{
    match class_of_operand(reference) {
        None => Ok(false),
        Some(class) => on_cast(alloc, table, scope, reference, class, target),
    }
}

/// Whether the member of the class that stands in front of the dot is the declaration, and no
/// instance one.
fn on_operand_class(
    alloc: Global,
    table: &Table,
    scope: &Scope,
    reference: &Reference,
    target: &Decl,
) -> Result<bool, AllocError>
    ensures { IfOk result (λ b. IsTrue b ↔ ThroughOperand table.now (scope_of scope.now)
        (reference_of reference.now) (decl_of target.now)) }
{
    match class_of_operand(reference) {
        None => Ok(false),
        Some(class) => is_on_class(alloc, table, scope, &reference.args, class, target),
    }
}

/// Whether the asked spelling through a class binds.
fn on_asked_class(
    alloc: Global,
    table: &Table,
    scope: &Scope,
    reference: &Reference,
    target: &Decl,
) -> Result<bool, AllocError>
    ensures { IfOk result (λ b. IsTrue b ↔ BindsOnAskedClass table.now (scope_of scope.now)
        (reference_of reference.now) (decl_of target.now)) }
{
    match &reference.front {
        None => Ok(false),
        Some(front) => {
            let has = is_on_class(alloc, table, scope, &reference.args, front, target)?;
            if has {
                on_operand_class(alloc, table, scope, reference, target)
            } else {
                Ok(false)
            }
        }
    }
}

/// Whether `K.x` binds.
fn on_class(
    alloc: Global,
    table: &Table,
    scope: &Scope,
    reference: &Reference,
    target: &Decl,
) -> Result<bool, AllocError>
    ensures { IfOk result (λ b. IsTrue b ↔ BindsOnClass table.now (scope_of scope.now)
        (reference_of reference.now) (decl_of target.now)) }
{
    let class = declaring_class(target);
    if leads_simply(table, scope, &class.name, class) {
        is_on_class(alloc, table, scope, &reference.args, class, target)
    } else {
        Ok(false)
    }
}

/// Whether `Outer.K.x` binds.
fn on_outer_class(
    alloc: Global,
    table: &Table,
    scope: &Scope,
    reference: &Reference,
    target: &Decl,
) -> Result<bool, AllocError>
    ensures { IfOk result (λ b. IsTrue b ↔ BindsOnOuterClass table.now (scope_of scope.now)
        (reference_of reference.now) (decl_of target.now)) }
{
    let class = declaring_class(target);
    let Some(outer) = &class.outer else {
        return Ok(false);
    };
    if leads_dotted(table, scope, outer, &class.name, class) {
        is_on_class(alloc, table, scope, &reference.args, class, target)
    } else {
        Ok(false)
    }
}

/// Whether `Outer.K` binds as the name of a type.
fn as_outer_class(table: &Table, scope: &Scope, reference: &Reference, target: &Decl) -> bool
    ensures { IsTrue result ↔ BindsAsOuterClass table.now (scope_of scope.now)
        (reference_of reference.now) (decl_of target.now) }
{
    let class = declaring_class(target);
    match &class.outer {
        None => false,
        Some(outer) => is_type_in(table, scope, outer, &class.name, class),
    }
}

/// Whether the constructor of a `super(..)` call is the declaration.
fn as_super_constructor(
    alloc: Global,
    table: &Table,
    scope: &Scope,
    reference: &Reference,
    target: &Decl,
) -> Result<bool, AllocError>
    ensures { IfOk result (λ b. IsTrue b ↔ BindsConstructor table.now (scope_of scope.now)
        (reference_of reference.now) (decl_of target.now) None) }
{
    table.keeps_rows();
    match superclass(table, &scope.class) {
        None => Ok(false),
        Some(parent) => is_ctor(alloc, table, scope, &reference.args, parent, target),
    }
}

/// Whether the constructor of a creation or a `super(..)` call is the declaration.
fn as_constructor(
    alloc: Global,
    table: &Table,
    scope: &Scope,
    reference: &Reference,
    target: &Decl,
) -> Result<bool, AllocError>
    ensures { IfOk result (λ b. IsTrue b ↔ BindsConstructor table.now (scope_of scope.now)
        (reference_of reference.now) (decl_of target.now)
        (class_of_operand (reference_of reference.now).operand)) }
{
    match class_of_operand(reference) {
        None => as_super_constructor(alloc, table, scope, reference, target),
        Some(class) => is_ctor(alloc, table, scope, &reference.args, class, target),
    }
}

/// Whether the asked spelling of what has no other binds.
fn alone(
    alloc: Global,
    table: &Table,
    scope: &Scope,
    reference: &Reference,
    target: &Decl,
) -> Result<bool, AllocError>
    ensures { IfOk result (λ b. IsTrue b ↔ BindsAlone table.now (scope_of scope.now)
        (reference_of reference.now) (decl_of target.now) (decl_of target.now)) }
{
    match target {
        Decl::Local(_) => Ok(is_variable(table, scope, &reference.asked, target)),
        Decl::Method(_) => on_super(alloc, table, scope, reference, target),
        Decl::Ctor(_) => as_constructor(alloc, table, scope, reference, target),
        Decl::Class(_) => Ok(false),
        Decl::Field(_) => Ok(false),
    }
}

/// Whether the asked name of a type binds.
fn as_written(
    alloc: Global,
    table: &Table,
    scope: &Scope,
    reference: &Reference,
    target: &Decl,
) -> Result<bool, AllocError>
    ensures { IfOk result (λ b. IsTrue b ↔ BindsAsked table.now (scope_of scope.now)
        (reference_of reference.now) (decl_of target.now) ref.ClassName) }
{
    is_type_text(
        alloc,
        table,
        scope,
        &reference.asked,
        declaring_class(target),
    )
}

/// Whether the asked words of a class in front of a dot find it.
fn finds_front(reference: &Reference, target: &Decl) -> bool
    ensures { IsTrue result
        ↔ ((reference_of reference.now).front ≡ Some (class_of (decl_of target.now))) }
{
    let class = declaring_class(target);
    match &reference.front {
        None => false,
        Some(front) => *front == *class,
    }
}

/// Whether the class is found behind the class that stands in front of its dot, if one does.
fn behind_operand(table: &Table, scope: &Scope, reference: &Reference, target: &Decl) -> bool
    ensures { IsTrue result ↔ BehindOperand table.now (scope_of scope.now)
        (reference_of reference.now) (decl_of target.now)
        (class_of_operand (reference_of reference.now).operand) }
{
    let class = declaring_class(target);
    match class_of_operand(reference) {
        None => true,
        Some(front) => leads_in(table, scope, front, &class.name, class),
    }
}

/// Whether a class in front of a dot binds as it is asked.
fn as_front(table: &Table, scope: &Scope, reference: &Reference, target: &Decl) -> bool
    ensures { IsTrue result ↔ BindsAskedInFront table.now (scope_of scope.now)
        (reference_of reference.now) (decl_of target.now) }
{
    finds_front(reference, target) & behind_operand(table, scope, reference, target)
}

/// Whether `Outer.K` binds in front of a dot.
fn as_outer_front(table: &Table, scope: &Scope, reference: &Reference, target: &Decl) -> bool
    ensures { IsTrue result ↔ BindsAsOuterInFront table.now (scope_of scope.now)
        (reference_of reference.now) (decl_of target.now) }
{
    let class = declaring_class(target);
    match &class.outer {
        None => false,
        Some(outer) => leads_dotted(table, scope, outer, &class.name, class),
    }
}

/// Whether the asked spelling binds.
fn as_asked(
    alloc: Global,
    table: &Table,
    scope: &Scope,
    reference: &Reference,
    target: &Decl,
) -> Result<bool, AllocError>
    ensures { IfOk result (λ b. IsTrue b ↔ BindsAsked table.now (scope_of scope.now)
        (reference_of reference.now) (decl_of target.now) reference.now.form) }
{
    let asked = &reference.asked;
    match reference.form {
        RefForm::FieldSimple => Ok(is_variable(table, scope, asked, target)),
        RefForm::FieldOn => on_operand(alloc, table, scope, reference, target),
        RefForm::FieldSuper => on_super(alloc, table, scope, reference, target),
        RefForm::ThroughClass => on_asked_class(alloc, table, scope, reference, target),
        RefForm::MethodSimple => {
            is_method_named(alloc, table, scope, &reference.args, asked, target)
        }
        RefForm::MethodOn => on_operand(alloc, table, scope, reference, target),
        RefForm::ClassName => as_written(alloc, table, scope, reference, target),
        RefForm::ClassInFront => Ok(as_front(table, scope, reference, target)),
        RefForm::AsAsked => alone(alloc, table, scope, reference, target),
    }
}

/// Whether a spelling of the reference binds.
pub(crate) fn binds(
    alloc: Global,
    table: &Table,
    scope: &Scope,
    reference: &Reference,
    target: &Decl,
    form: Form,
) -> Result<bool, AllocError>
    ensures { IfOk result (λ b. IsTrue b ↔ Binds table.now (scope_of scope.now)
        (reference_of reference.now) (decl_of target.now) form) }
{
    let class = declaring_class(target);
    match form {
        Form::Asked => as_asked(alloc, table, scope, reference, target),
        Form::OnThis => on_this(alloc, table, scope, reference, target),
        Form::OnSuper => on_super(alloc, table, scope, reference, target),
        Form::OnCastThis => on_cast_this(alloc, table, scope, reference, target),
        Form::OnCastOperand => on_cast_operand(alloc, table, scope, reference, target),
        Form::OnClass => on_class(alloc, table, scope, reference, target),
        Form::OnOuterClass => on_outer_class(alloc, table, scope, reference, target),
        Form::Class => Ok(is_type(table, scope, &class.name, class)),
        Form::OuterClass => Ok(as_outer_class(table, scope, reference, target)),
        Form::ClassInFront => Ok(leads_simply(table, scope, &class.name, class)),
        Form::OuterClassInFront => Ok(as_outer_front(table, scope, reference, target)),
    }
}
