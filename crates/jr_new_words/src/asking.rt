//! References as they are asked in the new program.
ghost use Rattle.std.specs.Prelude.{◌≡◌, [], IfOk, option_map};
ghost use Rattle.jr_table.specs.KeyView.{decl_of};
ghost use Rattle.jr_table.specs.TypeView.{class_key_of};
ghost use Rattle.jr_spell.specs.declared.references.RefForm.TheVariants as ref;
ghost use Rattle.jr_spell.specs.ReferenceView as view;
ghost use Rattle.jr_spell.specs.ReferenceView.{reference_of};
ghost use Rattle.jr_images.specs.Spelling.{reference, behind_words};
ghost use Rattle.jr_new_words.specs.FrontView.{in_front_of};
ghost use Rattle.jr_new_words.specs.Taking as taking;
ghost use Rattle.jr_new_words.specs.Ways as pure;

use crate::fronts::{InFront, named_copy};
use crate::ways::{Way, form_of, front_by, on, operand_by, text_by};
use jr_ast::Name;
use jr_spell::{Operand, RefForm, Reference};
use jr_table::{ClassKey, Decl, Tys};
use std::alloc::{AllocError, Global};

/// A reference as it is asked, and the name of the image of its declaration.
#[derive(Drop)]
pub(crate) struct Asked {
    pub(crate) reference: Reference,
    pub(crate) name: Name,
}

/// No types.
pub(crate) fn no_types(alloc: Global) -> Result<Tys, AllocError>
    ensures { IfOk result (λ types. types ≡ []) }
{
    Tys::from_vec(Vec::new(alloc))
}

/// The name that a declaration is asked by; a local goes by this one, a constructor by none.
pub(crate) fn name_in<'a>(decl: &'a Decl, of_local: &'a Name) -> &'a str
    ensures { result.now ≡ pure.name_in (decl_of decl.now) of_local.now }
{
    match decl {
        Decl::Class(key) => key.name.as_str(),
        Decl::Field(key) => key.name.as_str(),
        Decl::Method(key) => key.name.as_str(),
        Decl::Ctor(_) => "",
        Decl::Local(_) => of_local.as_str(),
    }
}

/// A reference that is asked this way by this name, for arguments of these types.
fn reference_by(
    alloc: Global,
    way: &Way<'_>,
    name: &str,
    args: &Tys,
) -> Result<Reference, AllocError>
    ensures { IfOk result (λ r.
        reference_of r ≡ pure.reference_by (pure.way_of way.now) name.now args.now) }
{
    let form = form_of(way);
    let asked = text_by(alloc, way, name)?;
    let args = args.copy()?;
    let operand = operand_by(alloc, way)?;
    let front = front_by(way)?;
    Ok(Reference {
        form,
        asked,
        operand,
        front,
        args,
    })
}

/// The same, with the name.
pub(crate) fn asked_by(
    alloc: Global,
    way: &Way<'_>,
    name: &str,
    args: &Tys,
) -> Result<Asked, AllocError>
    ensures name { IfOk result (λ a. a.name ≡ name.now) }
    ensures reference { IfOk result (λ a. reference_of a.reference
        ≡ pure.reference_by (pure.way_of way.now) name.now args.now) }
{
    let written = Name::new(alloc, name)?;
    let reference = reference_by(alloc, way, name, args)?;
    Ok(Asked {
        reference,
        name: written,
    })
}

/// The class that stands in front of a dot, if one does.
fn operand_if(alloc: Global, class: Option<&ClassKey>) -> Result<Option<Operand>, AllocError>
    ensures { IfOk result (λ o. option_map view.operand_of o
        ≡ taking.operand_if (option_map (λ k. class_key_of k.now) class.entry)) }
{
    match class {
        None => Ok(None),
        Some(class) => on(alloc, class),
    }
}

/// A class in front of a dot as it is asked, by words that stand so; behind a class, or not.
pub(crate) fn asked_in_front(
    alloc: Global,
    front: &InFront<'_>,
    behind: Option<&ClassKey>,
    image: &ClassKey,
) -> Result<Asked, AllocError>
    ensures name { IfOk result (λ a. a.name ≡ image.now.name) }
    ensures reference { IfOk result (λ a. reference_of a.reference
        ≡ behind_words (in_front_of front.now)
        (reference ref.ClassInFront image.now.name
        (taking.operand_if (option_map (λ k. class_key_of k.now) behind.entry)) [])) }
{
    let name = image.name.copy()?;
    let asked = image.name.copy()?;
    let args = no_types(alloc)?;
    let front = named_copy(front)?;
    let operand = operand_if(alloc, behind)?;
    Ok(Asked {
        reference: Reference {
            form: RefForm::ClassInFront,
            asked,
            operand,
            front,
            args,
        },
        name,
    })
}
