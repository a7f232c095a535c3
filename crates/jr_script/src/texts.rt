//! How places, sites and what a lookup finds are written.

ghost use Rattle.std.specs.Prelude.{◌≡◌, ◌<◌, ◌++◌, length, codes, IfOk, string_bytes};
ghost use Rattle.jr_table.specs.KeyView.{decl_of, local_key_of, field_key_of};
ghost use Rattle.jr_table.specs.FoundView.{found_of};
ghost use Rattle.jr_names.specs.DeclTexts as decl_texts;
ghost use Rattle.jr_names.specs.SiteView.{site_of, site_at_of};
ghost use Rattle.jr_script.specs.Texts as texts;

use jr_ast::Name;
use jr_names::{SiteAt, decl_text, field_text, local_text};
use jr_sync::{Kind, Site};
use jr_table::{Decl, FieldKey, Found, LocalKey};
use jr_text::Place;
use std::alloc::{AllocError, Global};

// `FILE:AT`.
pub(crate) fn at_text(alloc: Global, file: &Name, at: u32) -> Result<String, AllocError>
    ensures { IfOk result (λ text. string_bytes text ≡ texts.at_text file.now at) }
{
    let file = file.as_str();
    format!(in alloc; "{file}:{at}")
}

// The same of a place in one of the files.
pub(crate) fn place_text(alloc: Global, files: &[Name], place: Place) -> Result<String, AllocError>
    requires { place.file < length files.now }
    ensures { IfOk result (λ text. string_bytes text ≡ texts.place_text files.now place) }
{
    at_text(alloc, &files[place.file as usize], place.at)
}

pub(crate) fn found_text(alloc: Global, found: &Found) -> Result<String, AllocError>
    ensures { IfOk result (λ text. string_bytes text ≡ texts.found_text (found_of found.now)) }
{
    match found {
        Found::One(decl) => one_text(alloc, decl),
        Found::Nothing => String::from_str(alloc, "none"),
        Found::Many(first, second) => many_text(alloc, first, second),
        Found::NotAccessible(decl) => marked_text(alloc, decl, " not accessible"),
        Found::FromStatic(decl) => marked_text(alloc, decl, " from static"),
    }
}

fn one_text(alloc: Global, decl: &Decl) -> Result<String, AllocError>
    ensures { IfOk result (λ text. string_bytes text ≡ decl_texts.decl_text (decl_of decl.now)) }
{
    let decl = decl_text(alloc, decl)?;
    String::from_str(alloc, decl.as_str())
}

fn many_text(alloc: Global, first: &Decl, second: &Decl) -> Result<String, AllocError>
    ensures { IfOk result (λ text. string_bytes text ≡ decl_texts.decl_text (decl_of first.now)
        ++ codes " and " ++ decl_texts.decl_text (decl_of second.now)) }
{
    let first = one_text(alloc, first)?;
    let second = one_text(alloc, second)?;
    format!(in alloc; "{first} and {second}")
}

// The declaration, and what is said of it.
fn marked_text(alloc: Global, decl: &Decl, said: &str) -> Result<String, AllocError>
    ensures { IfOk result (λ text. string_bytes text
        ≡ decl_texts.decl_text (decl_of decl.now) ++ said.now) }
{
    let decl = one_text(alloc, decl)?;
    format!(in alloc; "{decl}{said}")
}

fn kind_text(kind: Kind) -> &'static str
    ensures { result.now ≡ texts.kind_text kind }
{
    match kind {
        Kind::Load => "Load",
        Kind::Store => "Store",
        Kind::VolatileLoad => "VolatileLoad",
        Kind::VolatileStore => "VolatileStore",
        Kind::Enter => "Enter",
        Kind::Exit => "Exit",
        Kind::Still => "Still",
    }
}

fn site_text(alloc: Global, site: &Site<FieldKey, LocalKey>) -> Result<String, AllocError>
    ensures { IfOk result (λ text. string_bytes text ≡ texts.site_text (site_of site.now)) }
{
    match site {
        Site::Read(local) => local_site_text(alloc, "Read", local),
        Site::Write(local) => local_site_text(alloc, "Write", local),
        Site::Access(kind, Some(field)) => access_text(alloc, *kind, field),
        Site::Access(kind, None) => String::from_str(alloc, kind_text(*kind)),
        Site::Check => String::from_str(alloc, "Check"),
        Site::Call => String::from_str(alloc, "Call"),
        Site::Loop => String::from_str(alloc, "Loop"),
    }
}

fn local_site_text(alloc: Global, word: &str, local: &LocalKey) -> Result<String, AllocError>
    ensures { IfOk result (λ text. string_bytes text
        ≡ word.now ++ codes " " ++ decl_texts.local_text (local_key_of local.now)) }
{
    let local = local_text(alloc, local)?;
    format!(in alloc; "{word} {local}")
}

fn access_text(alloc: Global, kind: Kind, field: &FieldKey) -> Result<String, AllocError>
    ensures { IfOk result (λ text. string_bytes text
        ≡ texts.kind_text kind ++ codes " " ++ decl_texts.field_text (field_key_of field.now)) }
{
    let kind = kind_text(kind);
    let field = field_text(alloc, field)?;
    format!(in alloc; "{kind} {field}")
}

// The site behind its place.
pub(crate) fn site_at_text(
    alloc: Global,
    files: &[Name],
    site: &SiteAt,
) -> Result<String, AllocError>
    requires { site.now.place.file < length files.now }
    ensures { IfOk result (λ text. string_bytes text
        ≡ texts.site_at_text files.now (site_at_of site.now)) }
{
    let place = place_text(alloc, files, site.place)?;
    let site = site_text(alloc, &site.site)?;
    format!(in alloc; "{place} {site}")
}
