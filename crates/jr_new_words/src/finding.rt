//! The one declaration that is found.
ghost use Rattle.std.specs.Prelude.{◌≡◌, ◌↔◌, IsTrue, option_map};
ghost use Rattle.jr_table.specs.Meanings.{class_found};
ghost use Rattle.jr_table.specs.TypeView.{class_key_of};
ghost use Rattle.jr_table.specs.KeyView.{decl_of};
ghost use Rattle.jr_table.specs.FoundView.{found_of};
ghost use Rattle.jr_table.specs.Decls.{class_decl};
ghost use Rattle.jr_table.specs.Found.{one, nothing};
ghost use Rattle.jr_new_words.specs.Finding as pure;

use jr_table::{ClassKey, Decl, Found};

/// Whether nothing is found.
pub(crate) fn is_nothing(found: &Found) -> bool
    ensures { IsTrue result ↔ (found_of found.now ≡ nothing) }
{
    match found {
        Found::One(_) => false,
        Found::Nothing => true,
        Found::Many(_, _) => false,
        Found::NotAccessible(_) => false,
        Found::FromStatic(_) => false,
    }
}

/// What is found, if it is not nothing.
pub(crate) fn something(found: Found) -> Option<Found>
    ensures { option_map found_of result ≡ pure.something (found_of found) }
{
    match found {
        Found::One(decl) => Some(Found::One(decl)),
        Found::Nothing => None,
        Found::Many(first, second) => Some(Found::Many(first, second)),
        Found::NotAccessible(decl) => Some(Found::NotAccessible(decl)),
        Found::FromStatic(decl) => Some(Found::FromStatic(decl)),
    }
}

/// Whether this class is found.
pub(crate) fn is_class(found: &Found, class: &ClassKey) -> bool
    ensures { IsTrue result ↔ (found_of found.now ≡ one (class_decl (class_key_of class.now))) }
{
    match found {
        Found::One(decl) => is_decl_of(decl, class),
        Found::Nothing => false,
        Found::Many(_, _) => false,
        Found::NotAccessible(_) => false,
        Found::FromStatic(_) => false,
    }
}

fn is_decl_of(decl: &Decl, class: &ClassKey) -> bool
    ensures { IsTrue result
        ↔ (one (decl_of decl.now) ≡ one (class_decl (class_key_of class.now))) }
{
    match decl {
        Decl::Class(key) => key == class,
        Decl::Field(_) => false,
        Decl::Method(_) => false,
        Decl::Ctor(_) => false,
        Decl::Local(_) => false,
    }
}

/// The declaration that is found.
pub(crate) fn decl_found(found: &Found) -> Option<&Decl>
    ensures { option_map (λ d. decl_of d.now) result ≡ pure.decl_found (found_of found.now) }
{
    match found {
        Found::One(decl) => Some(decl),
        Found::Nothing => None,
        Found::Many(_, _) => None,
        Found::NotAccessible(_) => None,
        Found::FromStatic(_) => None,
    }
}

fn as_class(decl: &Decl) -> Option<&ClassKey>
    ensures { option_map (λ k. class_key_of k.now) result
        ≡ class_found (one (decl_of decl.now)) }
{
    match decl {
        Decl::Class(key) => Some(key),
        Decl::Field(_) => None,
        Decl::Method(_) => None,
        Decl::Ctor(_) => None,
        Decl::Local(_) => None,
    }
}

/// The class that is found.
pub(crate) fn class_found(found: &Found) -> Option<&ClassKey>
    ensures { option_map (λ k. class_key_of k.now) result
        ≡ class_found (found_of found.now) }
{
    match found {
        Found::One(decl) => as_class(decl),
        Found::Nothing => None,
        Found::Many(_, _) => None,
        Found::NotAccessible(_) => None,
        Found::FromStatic(_) => None,
    }
}
