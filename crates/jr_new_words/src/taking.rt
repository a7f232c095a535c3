//! The choice for one reference, by the way in which it leads to its declaration.
ghost use Rattle.std.specs.Prelude.{◌≡◌, Some, IfOk, option_map};
ghost use Rattle.jr_table.specs.Decls.{local_decl};
ghost use Rattle.jr_table.specs.Found.{Found};
ghost use Rattle.jr_table.specs.KeyView.{decl_of, local_key_of};
ghost use Rattle.jr_rewrite.specs.Respellings.{loses};
ghost use Rattle.jr_new_words.specs.ChoiceView.{choice_of};
ghost use Rattle.jr_new_words.specs.Mappings.{decl_by, decl_to};
ghost use Rattle.jr_new_words.specs.Scopes.{
  IsKept,
  rows_of,
  mapping_of,
  context_of,
  rows_to,
  place_to,
};
ghost use Rattle.jr_new_words.specs.Taking.{asked_of, SpellsAt};
ghost use Rattle.jr_new_words.specs.Ways as pure;

use crate::asking::{Asked, asked_by, name_in};
use crate::choices::Choice;
use crate::choosing::{choose, loss_of};
use crate::finding::decl_found;
use crate::looking::{look_up_after, look_up_before};
use crate::mappings::{keyed_to, member_to, name_of};
use crate::numbers::number_to;
use crate::scopes::Scopes;
use crate::staying_by::stays_by;
use crate::ways::{Way, leads_to};
use jr_ast::Name;
use jr_table::{Decl, LocalKey, Tys, lookups_are_exact};
use std::alloc::{AllocError, Global};

// What a path would drop in pieces goes by a call.

pub(crate) fn forget_asked(asked: Asked) {
    drop(asked)
}

pub(crate) fn forget_decl(decl: Decl) {
    drop(decl)
}

/// The loss of a declaration, with what is found as it is asked.
fn lost_by(
    alloc: Global,
    scopes: &Scopes<'_>,
    at: u32,
    way: &Way<'_>,
    asked: &Asked,
    declaration: &Decl,
) -> Result<Choice, AllocError>
    requires { IsKept scopes.now }
    ensures { IfOk result (λ h. (f : Found) × pure.Finds (rows_to scopes.now)
        (place_to scopes.now) (pure.way_of way.now) asked.now.name asked.now.reference.args f
        × (choice_of h ≡ loses (record
        { at = at; declaration = decl_of declaration.now; found = f }))) }
{
    let found = look_up_after(alloc, scopes, way, &asked.name, &asked.reference.args)?;
    loss_of(at, declaration, found)
}

/// What is taken for the image of this name, or else the loss.
fn taken_or_lost(
    alloc: Global,
    scopes: &Scopes<'_>,
    at: u32,
    old: &Name,
    way: &Way<'_>,
    asked: &Asked,
    declaration: &Decl,
    image: &Decl,
) -> Result<Choice, AllocError>
    requires { IsKept scopes.now }
    ensures { IfOk result (λ h. SpellsAt (rows_to scopes.now) (place_to scopes.now)
        (asked_of asked.now (decl_of image.now)) at old.now (decl_of declaration.now)
        (pure.Finds (rows_to scopes.now) (place_to scopes.now) (pure.way_of way.now)
        asked.now.name asked.now.reference.args) (choice_of h)) }
{
    let first = choose(alloc, scopes, asked, image, old)?;
    match first {
        Some(choice) => Ok(choice),
        None => lost_by(alloc, scopes, at, way, asked, declaration),
    }
}

/// What is taken for the image, or else the loss.
pub(crate) fn taken_to(
    alloc: Global,
    scopes: &Scopes<'_>,
    at: u32,
    old: &Name,
    way: &Way<'_>,
    args: &Tys,
    declaration: &Decl,
    image: &Decl,
) -> Result<Choice, AllocError>
    requires { IsKept scopes.now }
    ensures { IfOk result (λ h. pure.SpellsTo (rows_of scopes.now) (mapping_of scopes.now)
        (context_of scopes.now) (decl_of image.now) (pure.way_of way.now) args.now at old.now
        (decl_of declaration.now) (choice_of h)) }
{
    let of_local = name_of(&scopes.programs.keys, declaration, old);
    let asked = asked_by(alloc, way, name_in(image, of_local), args)?;
    let choice = taken_or_lost(alloc, scopes, at, old, way, &asked, declaration, image);
    forget_asked(asked);
    choice
}

/// The image of a local, if it isn't gone.
fn local_image(
    alloc: Global,
    scopes: &Scopes<'_>,
    key: &LocalKey,
) -> Result<Option<Decl>, AllocError>
    ensures { IfOk result (λ o. option_map decl_of o
        ≡ decl_to (mapping_of scopes.now) (local_decl (local_key_of key.now))) }
{
    let number = number_to(&scopes.numbers, key.number)?;
    match number {
        None => Ok(None),
        Some(number) => {
            let member = member_to(alloc, &scopes.programs.keys, &key.member)?;
            Ok(Some(Decl::Local(LocalKey { member, number })))
        }
    }
}

/// The image of what is no local.
fn keyed_image(
    alloc: Global,
    scopes: &Scopes<'_>,
    declaration: &Decl,
) -> Result<Option<Decl>, AllocError>
    ensures { IfOk result (λ o. option_map decl_of o
        ≡ Some (decl_by (mapping_of scopes.now).keys (decl_of declaration.now))) }
{
    let image = keyed_to(alloc, &scopes.programs.keys, declaration)?;
    Ok(Some(image))
}

/// The image of a declaration; of a local that is gone none.
fn image_of(
    alloc: Global,
    scopes: &Scopes<'_>,
    declaration: &Decl,
) -> Result<Option<Decl>, AllocError>
    ensures { IfOk result (λ o. option_map decl_of o
        ≡ decl_to (mapping_of scopes.now) (decl_of declaration.now)) }
{
    match declaration {
        Decl::Local(key) => local_image(alloc, scopes, key),
        Decl::Class(_) => keyed_image(alloc, scopes, declaration),
        Decl::Field(_) => keyed_image(alloc, scopes, declaration),
        Decl::Method(_) => keyed_image(alloc, scopes, declaration),
        Decl::Ctor(_) => keyed_image(alloc, scopes, declaration),
    }
}

/// The loss of a local that is gone, with what its name finds now.
fn gone(
    alloc: Global,
    scopes: &Scopes<'_>,
    at: u32,
    old: &Name,
    way: &Way<'_>,
    args: &Tys,
    declaration: &Decl,
) -> Result<Choice, AllocError>
    requires { IsKept scopes.now }
    ensures { IfOk result (λ h. pure.Gone (rows_of scopes.now) (mapping_of scopes.now)
        (context_of scopes.now) (pure.way_of way.now) args.now at old.now
        (decl_of declaration.now) (choice_of h)) }
{
    let name = name_of(&scopes.programs.keys, declaration, old);
    let found = look_up_after(alloc, scopes, way, name, args)?;
    loss_of(at, declaration, found)
}

/// The choice for a declaration that has this image, if it has one.
fn by_image(
    alloc: Global,
    scopes: &Scopes<'_>,
    at: u32,
    old: &Name,
    way: &Way<'_>,
    args: &Tys,
    declaration: &Decl,
    image: &Option<Decl>,
) -> Result<Choice, AllocError>
    requires { IsKept scopes.now }
    ensures { IfOk result (λ h. pure.OfDecl (option_map decl_of image.now)
        (λ i. pure.SpellsTo (rows_of scopes.now) (mapping_of scopes.now) (context_of scopes.now)
        i (pure.way_of way.now) args.now at old.now (decl_of declaration.now) (choice_of h))
        (pure.Gone (rows_of scopes.now) (mapping_of scopes.now) (context_of scopes.now)
        (pure.way_of way.now) args.now at old.now (decl_of declaration.now) (choice_of h))) }
{
    match image {
        None => gone(alloc, scopes, at, old, way, args, declaration),
        Some(image) => taken_to(alloc, scopes, at, old, way, args, declaration, image),
    }
}

fn forget_image(image: Option<Decl>) {
    drop(image)
}

/// The choice for a declaration, asked this way.
fn choice_by(
    alloc: Global,
    scopes: &Scopes<'_>,
    at: u32,
    old: &Name,
    way: &Way<'_>,
    args: &Tys,
    declaration: &Decl,
) -> Result<Choice, AllocError>
    requires { IsKept scopes.now }
    ensures { IfOk result (λ h. pure.SpellsBy (rows_of scopes.now) (mapping_of scopes.now)
        (context_of scopes.now) (pure.way_of way.now) args.now at old.now
        (decl_of declaration.now) (choice_of h)) }
{
    let image = image_of(alloc, scopes, declaration)?;
    let choice = by_image(alloc, scopes, at, old, way, args, declaration, &image);
    forget_image(image);
    choice
}

/// The choice for a declaration, if the way leads to such ones.
pub(crate) fn chosen_for(
    alloc: Global,
    scopes: &Scopes<'_>,
    at: u32,
    old: &Name,
    way: &Way<'_>,
    args: &Tys,
    declaration: &Decl,
) -> Result<Option<Choice>, AllocError>
    requires { IsKept scopes.now }
    ensures { IfOk result (λ o. pure.IsChosenFor (rows_of scopes.now) (mapping_of scopes.now)
        (context_of scopes.now) (pure.way_of way.now) args.now at old.now
        (decl_of declaration.now) (option_map choice_of o)) }
{
    if leads_to(way, declaration) {
        Ok(Some(choice_by(alloc, scopes, at, old, way, args, declaration)?))
    } else {
        Ok(None)
    }
}

/// The same, with the declaration that is looked up.
fn chosen_by_lookup(
    alloc: Global,
    scopes: &Scopes<'_>,
    at: u32,
    name: &Name,
    from: &Way<'_>,
    types: &Tys,
    to: &Way<'_>,
    images: &Tys,
) -> Result<Option<Choice>, AllocError>
    requires { IsKept scopes.now }
    ensures { IfOk result (λ o. pure.IsChosenBy (rows_of scopes.now) (mapping_of scopes.now)
        (context_of scopes.now) (pure.way_of from.now) types.now (pure.way_of to.now) images.now
        at name.now (option_map choice_of o)) }
{
    scopes.programs.before.keeps_rows();
    lookups_are_exact();
    let found = look_up_before(alloc, scopes, from, name, types)?;
    match decl_found(&found) {
        None => Ok(None),
        Some(declaration) => chosen_for(alloc, scopes, at, name, to, images, declaration),
    }
}

/// The choice for what the name finds the one way, asked the other way.
pub(crate) fn chosen(
    alloc: Global,
    scopes: &Scopes<'_>,
    at: u32,
    name: &Name,
    from: &Way<'_>,
    types: &Tys,
    to: &Way<'_>,
    images: &Tys,
) -> Result<Option<Choice>, AllocError>
    requires { IsKept scopes.now }
    ensures { IfOk result (λ o. pure.IsChosenBy (rows_of scopes.now) (mapping_of scopes.now)
        (context_of scopes.now) (pure.way_of from.now) types.now (pure.way_of to.now) images.now
        at name.now (option_map choice_of o)) }
{
    let stays = stays_by(alloc, scopes, name, from, types, to, images)?;
    if stays {
        Ok(Some(Choice::Stays))
    } else {
        chosen_by_lookup(alloc, scopes, at, name, from, types, to, images)
    }
}
