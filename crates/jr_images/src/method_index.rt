//! Methods by the classes that declare them.
ghost use Rattle.std.specs.Prelude.{◌≡◌, ◌<◌, ◌^◌, [], None, map, length, IfOk};
ghost use Rattle.std.specs.Prelude.{false, unwrap_or, option_map, slice_get};
ghost use Rattle.jr_index.specs.Linked.{place_of, first_of, AreLinkedFrom};
ghost use Rattle.jr_table.specs.ClassIndex.{class_owner};
ghost use Rattle.jr_table.specs.Decls.{method_decl};
ghost use Rattle.jr_table.specs.KeyView.{method_key_of, decl_of};
ghost use Rattle.jr_table.specs.SameDecls.{same_decl};
ghost use Rattle.jr_images.specs.MethodIndex.{outer_at, outer_place, method_place};

use crate::decl_tests::is_method;
use jr_ast::Name;
use jr_index::{Linked, Place};
use jr_table::{Decl, MethodKey};
use std::alloc::{AllocError, Global};

/// Methods by the classes that declare them: those of a member class by the class around it and
/// its name.
#[derive(Drop)]
pub(crate) struct MethodIndex {
    /// The classes around member classes.
    outers: Linked,
    /// The owner of the classes that are no member classes.
    top: u32,
    classes: Linked,
}

/// The place of a declaration that is no method.
fn nowhere<'a>() -> Place<'a>
    ensures { place_of result ≡ (None, []) }
{
    Place {
        owner: None,
        name: "",
    }
}

/// Where the class around one is found, if there is one.
fn outer_at(outer: &Option<Name>) -> Place<'_>
    ensures { place_of result ≡ outer_at outer.now }
{
    match outer {
        None => nowhere(),
        Some(outer) => Place {
            owner: Some(0),
            name: outer.as_str(),
        },
    }
}

fn outer_place(decl: &Decl) -> Place<'_>
    ensures { place_of result ≡ outer_place (decl_of decl.now) }
{
    match decl {
        Decl::Method(key) => outer_at(&key.class.outer),
        Decl::Class(_) => nowhere(),
        Decl::Field(_) => nowhere(),
        Decl::Ctor(_) => nowhere(),
        Decl::Local(_) => nowhere(),
    }
}

fn outer_places<'a>(alloc: Global, decls: &'a [Decl]) -> Result<Vec<Place<'a>>, AllocError>
    ensures { IfOk result (λ v. map place_of v.items
        ≡ map (λ d. outer_place (decl_of d)) decls.now) }
{
    let mut places = Vec::new(alloc);
    for decl in decls {
        places.push(outer_place(decl))?;
    }
    Ok(places)
}

/// The owner of a class: of a member class the one around it.
fn class_owner(outers: &Linked, top: u32, outer: &Option<Name>) -> Option<u32>
    ensures { result ≡ class_owner (first_of outers.now 0) top outer.now }
{
    match outer {
        None => Some(top),
        Some(outer) => outers.first(0, outer.as_str()),
    }
}

/// Where a method is found.
fn method_place<'a>(outers: &Linked, top: u32, decl: &'a Decl) -> Place<'a>
    ensures { place_of result ≡ method_place (first_of outers.now 0) top (decl_of decl.now) }
{
    match decl {
        Decl::Method(key) => Place {
            owner: class_owner(outers, top, &key.class.outer),
            name: key.class.name.as_str(),
        },
        Decl::Class(_) => nowhere(),
        Decl::Field(_) => nowhere(),
        Decl::Ctor(_) => nowhere(),
        Decl::Local(_) => nowhere(),
    }
}

fn method_places<'a>(
    alloc: Global,
    outers: &Linked,
    top: u32,
    decls: &'a [Decl],
) -> Result<Vec<Place<'a>>, AllocError>
    ensures { IfOk result (λ v. map place_of v.items
        ≡ map (λ d. method_place (first_of outers.now 0) top (decl_of d)) decls.now) }
{
    let mut places = Vec::new(alloc);
    for decl in decls {
        places.push(method_place(outers, top, decl))?;
    }
    Ok(places)
}

fn outers(alloc: Global, decls: &[Decl]) -> Result<Linked, AllocError>
    requires { length decls.now < 2 ^ 32 }
    ensures { IfOk result
        (AreLinkedFrom (map (λ d. outer_place (decl_of d)) decls.now) 1 0) }
{
    let places = outer_places(alloc, decls)?;
    let outers = Linked::of_places(alloc, 1, &places)?;
    Ok(outers)
}

/// Whether the declaration of a number is the method.
fn is_at(decls: &[Decl], number: u32, key: &MethodKey) -> bool
    ensures { result ≡ unwrap_or (option_map
        (λ d. same_decl (method_decl (method_key_of key.now)) (decl_of d))
        (slice_get decls.now number)) false }
{
    match decls.get(number as usize) {
        None => false,
        Some(decl) => is_method(decl, key),
    }
}

impl MethodIndex {
    ghost use Rattle.std.specs.Prelude.{◌≡◌, ◌<◌, ◌^◌, Some, length, IfOk};
    ghost use Rattle.std.specs.List.{list_any};
    ghost use Rattle.jr_index.specs.Linked.{first_of};
    ghost use Rattle.jr_table.specs.ClassIndex.{class_owner};
    ghost use Rattle.jr_table.specs.Decls.{method_decl};
    ghost use Rattle.jr_table.specs.KeyView.{method_key_of, decl_of};
    ghost use Rattle.jr_table.specs.SameDecls.{same_decl};
    ghost use Rattle.jr_images.specs.MethodIndex.{FindsMethods};

    /// The methods among these declarations.
    pub(crate) fn of_decls(alloc: Global, decls: &[Decl]) -> Result<MethodIndex, AllocError>
        requires { length decls.now < 2 ^ 32 }
        ensures { IfOk result (FindsMethods decls.now) }
    {
        let top = decls.len() as u32;
        let outers = outers(alloc, decls)?;
        let places = method_places(alloc, &outers, top, decls)?;
        let classes = Linked::of_places(alloc, decls.len() + 1, &places)?;
        Ok(MethodIndex {
            outers,
            top,
            classes,
        })
    }

    /// Whether the method is among the declarations of its class.
    fn has_under(&self, decls: &[Decl], owner: u32, key: &MethodKey) -> bool
        requires finds { FindsMethods decls.now self.now }
        requires owner { class_owner (first_of self.now.outers 0) self.now.top
            key.now.class.outer ≡ Some owner }
        ensures { result ≡ list_any
            (λ d. same_decl (method_decl (method_key_of key.now)) (decl_of d)) decls.now }
    {
        let mut at = self.classes.first(owner, key.class.name.as_str());
        loop {
            let Some(number) = at else {
                return false;
            };
            if is_at(decls, number, key) {
                return true;
            }
            at = self.classes.next(number);
        }
    }

    /// Whether the method is among the declarations: only those of its class are asked.
    pub(crate) fn has(&self, decls: &[Decl], key: &MethodKey) -> bool
        requires { FindsMethods decls.now self.now }
        ensures { result ≡ list_any
            (λ d. same_decl (method_decl (method_key_of key.now)) (decl_of d)) decls.now }
    {
        match class_owner(&self.outers, self.top, &key.class.outer) {
            None => false,
            Some(owner) => self.has_under(decls, owner, key),
        }
    }
}
