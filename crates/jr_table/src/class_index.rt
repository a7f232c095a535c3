//! The numbers of classes by their keys.
ghost use Rattle.std.specs.Prelude.{◌≡◌, ◌<◌, ◌^◌, ℕ, List, [], None, map, length, IfOk};
ghost use Rattle.jr_index.specs.Linked.{place_of, first_of};
ghost use Rattle.jr_table.specs.TypeView.{class_key_of};
ghost use Rattle.jr_table.specs.KeyView.{decl_of};
ghost use Rattle.jr_table.specs.RowView.{row_of};
ghost use Rattle.jr_table.specs.Entries.{number_of, top_class};
ghost use Rattle.jr_table.specs.ClassIndex.{top_owner, top_place, class_owner, class_place};
ghost use Rattle.jr_table.specs.ClassIndex.{place_in};

use crate::classes::ClassKey;
use crate::decls::Decl;
use crate::rows::Row;
use jr_ast::Name;
use jr_index::{Linked, Place};
use std::alloc::{AllocError, Global};

/// The numbers of classes by their keys: a member class by the class around it and its name.
#[derive(Drop)]
pub(crate) struct ClassIndex {
    /// The owner of the classes that are no member classes, a number that no row has.
    top: u32,
    classes: Linked,
}

fn top_owner_of(outer: &Option<Name>) -> Option<u32>
    ensures { result ≡ top_owner outer.now }
{
    match outer {
        None => Some(0),
        Some(_) => None,
    }
}

/// Where a class that is no member class is found, among those alone.
fn top_place_of(row: &Row) -> Place<'_>
    ensures { place_of result ≡ top_place (decl_of row.now.decl) }
{
    match &row.decl {
        Decl::Class(key) => Place {
            owner: top_owner_of(&key.outer),
            name: key.name.as_str(),
        },
        Decl::Field(_) => nowhere(),
        Decl::Method(_) => nowhere(),
        Decl::Ctor(_) => nowhere(),
        Decl::Local(_) => nowhere(),
    }
}

/// The place of a row that declares no class.
fn nowhere<'a>() -> Place<'a>
    ensures { place_of result ≡ (None, []) }
{
    Place {
        owner: None,
        name: "",
    }
}

fn top_places<'a>(alloc: Global, rows: &'a [Row]) -> Result<Vec<Place<'a>>, AllocError>
    ensures { IfOk result (λ v. map place_of v.items
        ≡ map (λ r. top_place (decl_of r.decl)) rows.now) }
{
    let mut places = Vec::with_capacity(alloc, rows.len())?;
    for row in rows {
        places.push(top_place_of(row))?;
    }
    Ok(places)
}

fn class_owner_of(tops: &Linked, top: u32, outer: &Option<Name>) -> Option<u32>
    ensures { result ≡ class_owner (first_of tops.now 0) top outer.now }
{
    match outer {
        None => Some(top),
        Some(outer) => tops.first(0, outer.as_str()),
    }
}

/// Where a class is found.
fn class_place_of<'a>(tops: &Linked, top: u32, row: &'a Row) -> Place<'a>
    ensures { place_of result ≡ class_place (first_of tops.now 0) top (decl_of row.now.decl) }
{
    match &row.decl {
        Decl::Class(key) => Place {
            owner: class_owner_of(tops, top, &key.outer),
            name: key.name.as_str(),
        },
        Decl::Field(_) => nowhere(),
        Decl::Method(_) => nowhere(),
        Decl::Ctor(_) => nowhere(),
        Decl::Local(_) => nowhere(),
    }
}

fn class_places<'a>(
    alloc: Global,
    tops: &Linked,
    top: u32,
    rows: &'a [Row],
) -> Result<Vec<Place<'a>>, AllocError>
    ensures { IfOk result (λ v. map place_of v.items
        ≡ map (λ r. class_place (first_of tops.now 0) top (decl_of r.decl)) rows.now) }
{
    let mut places = Vec::with_capacity(alloc, rows.len())?;
    for row in rows {
        places.push(class_place_of(tops, top, row))?;
    }
    Ok(places)
}

/// The classes that are no member classes, by name.
fn tops(alloc: Global, rows: &[Row]) -> Result<Linked, AllocError>
    requires { length rows.now < 2 ^ 32 }
    ensures { IfOk result (λ x. (q : List ℕ)
        → first_of x 0 q ≡ number_of (map row_of rows.now) (top_class q)) }
{
    let places = top_places(alloc, rows)?;
    let tops = Linked::of_places(alloc, 1, &places)?;
    Ok(tops)
}

/// The places of all rows.
fn places<'a>(alloc: Global, rows: &'a [Row]) -> Result<Vec<Place<'a>>, AllocError>
    requires { length rows.now < 2 ^ 32 }
    ensures { IfOk result (λ v. map place_of v.items
        ≡ map (place_in (map row_of rows.now)) (map row_of rows.now)) }
{
    let tops = tops(alloc, rows)?;
    let places = class_places(alloc, &tops, rows.len() as u32, rows)?;
    Ok(places)
}

impl ClassIndex {
    ghost use Rattle.std.specs.Prelude.{◌≡◌, map, IfOk, None, option_and_then};
    ghost use Rattle.jr_index.specs.Linked.{first_of};
    ghost use Rattle.jr_table.specs.TypeView.{class_key_of};
    ghost use Rattle.jr_table.specs.RowView.{row_of};
    ghost use Rattle.jr_table.specs.Entries.{top_class};
    ghost use Rattle.jr_table.specs.Conditions.{AreRows};
    ghost use Rattle.jr_table.specs.ClassIndex.{class_found, class_in, FindsClasses};

    /// The classes of these rows.
    pub(crate) fn of_rows(alloc: Global, rows: &[Row]) -> Result<ClassIndex, AllocError>
        requires { AreRows (map row_of rows.now) }
        ensures { IfOk result (FindsClasses (map row_of rows.now)) }
    {
        let places = places(alloc, rows)?;
        let classes = Linked::of_places(alloc, rows.len() + 1, &places)?;
        Ok(ClassIndex {
            top: rows.len() as u32,
            classes,
        })
    }

    /// The class of the name that is no member class.
    pub(crate) fn find_top(&self, name: &Name) -> Option<u32>
        ensures { result ≡ class_in self.now None name.now }
    {
        self.classes.first(self.top, name.as_str())
    }

    fn find_member(&self, outer: Option<u32>, name: &Name) -> Option<u32>
        ensures { result ≡ option_and_then (λ c. first_of self.now.classes c name.now) outer }
    {
        match outer {
            None => None,
            Some(outer) => self.classes.first(outer, name.as_str()),
        }
    }

    /// The class of the key.
    pub(crate) fn find(&self, key: &ClassKey) -> Option<u32>
        ensures { result ≡ class_found self.now (class_key_of key.now) }
    {
        match &key.outer {
            None => self.find_top(&key.name),
            Some(outer) => self.find_member(self.find_top(outer), &key.name),
        }
    }
}
