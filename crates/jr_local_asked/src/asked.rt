//! The local at a place of a program, which a statement declares.
ghost use Rattle.std.specs.Prelude.{◌≡◌, ◌<◌, IfOk, MatchOption, length, map, option_map};
ghost use Rattle.jr_table.specs.KeyView.{decl_of, local_key_of};
ghost use Rattle.jr_members.specs.PartView.{written_of};
ghost use Rattle.jr_local_asked.specs.Asking as pure;
ghost use Rattle.jr_local_asked.specs.Declaring.{members_of};
ghost use Rattle.jr_local_asked.specs.AskedView.{asked_of};
ghost use Rattle.jr_local_asked.specs.DeclaredView.{declared_of};

use crate::declarations::{DeclaredLocal, declared_local};
use jr_bind::View;
use jr_cursor::{one_is_target, target};
use jr_members::WrittenMember;
use jr_table::{Decl, LocalKey};
use jr_text::Span;
use std::alloc::AllocError;

/// A local, and where it is declared.
#[derive(Drop)]
pub struct AskedLocal<'a> {
    pub key: LocalKey,
    pub declared: DeclaredLocal<'a>,
}

/// The local with its declaration, if there is one.
fn with_key<'a>(key: LocalKey, found: Option<DeclaredLocal<'a>>) -> Option<AskedLocal<'a>>
    ensures { option_map asked_of result
        ≡ pure.with_key (local_key_of key) (option_map declared_of found.entry) }
{
    match found {
        None => {
            drop(key);
            None
        }
        Some(declared) => Some(AskedLocal { key, declared }),
    }
}

/// The local, where a statement of the file declares it.
fn of_local<'a, V: View<Span>>(
    view: &V,
    members: &[WrittenMember<'a, Span>],
    file: u32,
    key: LocalKey,
) -> Result<Option<AskedLocal<'a>>, AllocError>
    requires { map written_of members.now ≡ members_of (V.program view.now) }
    ensures { IfOk result (λ o. MatchOption o
        (pure.LacksLocal (V.program view.now) file (local_key_of key))
        (λ x. pure.HasLocal (V.program view.now) file (local_key_of key) (asked_of x))) }
{
    match declared_local(view, members, file, &key) {
        Err(error) => {
            drop(key);
            Err(error)
        }
        Ok(found) => Ok(with_key(key, found)),
    }
}

/// The same of a declaration, which may be none of a local.
fn of_target<'a, V: View<Span>>(
    view: &V,
    members: &[WrittenMember<'a, Span>],
    file: u32,
    decl: Decl,
) -> Result<Option<AskedLocal<'a>>, AllocError>
    requires { map written_of members.now ≡ members_of (V.program view.now) }
    ensures { IfOk result (λ o. MatchOption o
        (pure.LacksTarget (V.program view.now) file (decl_of decl))
        (λ x. pure.HasTarget (V.program view.now) file (decl_of decl) (asked_of x))) }
{
    match decl {
        Decl::Local(key) => of_local(view, members, file, key),
        Decl::Class(key) => {
            drop(key);
            Ok(None)
        }
        Decl::Field(key) => {
            drop(key);
            Ok(None)
        }
        Decl::Method(key) => {
            drop(key);
            Ok(None)
        }
        Decl::Ctor(key) => {
            drop(key);
            Ok(None)
        }
    }
}

/// The local that the identifier at the byte of a file declares or is bound to, where a statement
/// of the file declares it: no parameter. `members` are the written members of the program. The
/// only fault is want of memory.
pub fn asked_local<'a, V: View<Span>>(
    view: &V,
    members: &[WrittenMember<'a, Span>],
    file: u32,
    at: u32,
) -> Result<Option<AskedLocal<'a>>, AllocError>
    requires file { file < length (V.program view.now).files }
    requires members { map written_of members.now ≡ members_of (V.program view.now) }
    ensures { IfOk result (λ o. MatchOption o (pure.LacksAsked (V.program view.now) file at)
        (λ x. pure.HasAsked (V.program view.now) file at (asked_of x))) }
{
    one_is_target();
    view.keeps_program();
    let found = target(view, members, file, at)?;
    match found {
        None => Ok(None),
        Some(decl) => of_target(view, members, file, decl),
    }
}
