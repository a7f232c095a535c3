//! The texts of spellings.
ghost use Rattle.std.specs.Prelude.{◌≡◌, ◌++◌, IfOk, codes};
ghost use Rattle.jr_table.specs.TypeView.{class_key_of};
ghost use Rattle.jr_table.specs.KeyView.{decl_of};
ghost use Rattle.jr_spell.specs.References.{text_of_operand};
ghost use Rattle.jr_spell.specs.ReferenceView.{reference_of};
ghost use Rattle.jr_spell.specs.Spellings.{cast_text, class_text, text_of};

use crate::declaring::{declared_name, declaring_class};
use crate::references::Reference;
use crate::spellings::Form;
use jr_ast::Name;
use jr_table::{ClassKey, Decl};
use std::alloc::{AllocError, Global};

/// The text of the operand; nothing where there is none.
fn operand_text(reference: &Reference) -> &str
    ensures { result.now ≡ text_of_operand (reference_of reference.now).operand }
{
    match &reference.operand {
        None => "",
        Some(operand) => operand.text.as_str(),
    }
}

/// `front.name`
fn dotted_name(alloc: Global, front: &str, name: &str) -> Result<Name, AllocError>
    ensures { IfOk result (λ n. n ≡ front.now ++ (codes "." ++ name.now)) }
{
    let text = format!(in alloc; "{front}.{name}")?;
    Name::new(alloc, text.as_str())
}

/// `((class) of).name`
fn cast(alloc: Global, class: &ClassKey, of: &str, name: &str) -> Result<Name, AllocError>
    ensures { IfOk result (λ n. n ≡ cast_text class.now.name of.now name.now) }
{
    let class = class.name.as_str();
    let text = format!(in alloc; "(({class}) {of}).{name}")?;
    Name::new(alloc, text.as_str())
}

/// The class's name, behind that of the class that it is a member of.
fn class_name(alloc: Global, class: &ClassKey) -> Result<Name, AllocError>
    ensures { IfOk result (λ n. n ≡ class_text (class_key_of class.now)) }
{
    match &class.outer {
        None => Name::new(alloc, class.name.as_str()),
        Some(outer) => dotted_name(alloc, outer.as_str(), class.name.as_str()),
    }
}

/// The class's name so, and a member's.
fn outer_member(alloc: Global, class: &ClassKey, name: &str) -> Result<Name, AllocError>
    ensures { IfOk result (λ n. n ≡ class_text (class_key_of class.now)
        ++ (codes "." ++ name.now)) }
{
    let front = class_name(alloc, class)?;
    dotted_name(alloc, front.as_str(), name)
}

/// The text of a spelling.
pub(crate) fn text(
    alloc: Global,
    reference: &Reference,
    target: &Decl,
    form: Form,
) -> Result<Name, AllocError>
    ensures { IfOk result (λ n. n
        ≡ text_of (reference_of reference.now) (decl_of target.now) form) }
{
    let class = declaring_class(target);
    let name = declared_name(target);
    match form {
        Form::Asked => Name::new(alloc, reference.asked.as_str()),
        Form::OnThis => dotted_name(alloc, "this", name),
        Form::OnSuper => dotted_name(alloc, "super", name),
        Form::OnCastThis => cast(alloc, class, "this", name),
        Form::OnCastOperand => cast(alloc, class, operand_text(reference), name),
        Form::OnClass => dotted_name(alloc, class.name.as_str(), name),
        Form::OnOuterClass => outer_member(alloc, class, name),
        Form::Class => Name::new(alloc, class.name.as_str()),
        Form::OuterClass => class_name(alloc, class),
        Form::ClassInFront => Name::new(alloc, class.name.as_str()),
        Form::OuterClassInFront => class_name(alloc, class),
    }
}
