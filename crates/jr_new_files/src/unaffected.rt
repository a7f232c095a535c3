//! Which written members a rename leaves as they are.
ghost use Rattle.std.specs.Prelude.{◌≡◌, ◌↔◌, ◌∷◌, [], IfSome, IsTrue, map};
ghost use Rattle.jr_table.specs.Decls.{local_decl};
ghost use Rattle.jr_table.specs.KeyView.{decl_of, local_key_of, member_key_of};
ghost use Rattle.jr_members.specs.PartView.{part_of, written_of};
ghost use Rattle.jr_mentions.specs.ApartView.{names_in};
ghost use Rattle.jr_mentions.specs.Avoids.{AvoidsPart};
ghost use Rattle.jr_images.specs.Images.{rows_to};
ghost use Rattle.jr_images.specs.ImageView.{renaming_of};
ghost use Rattle.jr_new_words.specs.MappingView.{keys_of};
ghost use Rattle.jr_new_words.specs.Scopes.{AreTables};
ghost use Rattle.jr_new_files.specs.Unaffected as pure;

use jr_images::NewName;
use jr_members::{PartRef, WrittenMember};
use jr_mentions::{Apart, apart};
use jr_new_words::{KeyMapping, Tables};
use jr_table::{Decl, LocalKey, MemberKey, Table};
use jr_text::Span;

/// What a written member has to avoid so that a rename leaves it as it is: the names by which the
/// two programs differ, and the local that gets another name, if it is one.
#[derive(Drop)]
pub(crate) struct Unaffected<'a> {
    names: Apart<'a>,
    local: Option<&'a LocalKey>,
}

/// The local that is all of these declarations, if it is.
fn only_local(decls: &[Decl]) -> Option<&LocalKey>
    ensures { IfSome result (λ k. map decl_of decls.now ≡ local_decl (local_key_of k.now) ∷ []) }
{
    if decls.len() != 1 {
        return None;
    }
    match &decls[0] {
        Decl::Local(key) => Some(key),
        Decl::Class(_) => None,
        Decl::Field(_) => None,
        Decl::Method(_) => None,
        Decl::Ctor(_) => None,
    }
}

/// Whether the declaration is a field or method of one of the names.
fn is_among(names: &Apart<'_>, decl: &Decl) -> bool
    ensures { IsTrue result → pure.IsAmong (names_in names.now) (decl_of decl.now) }
{
    match decl {
        Decl::Field(key) => names.has(&key.name),
        Decl::Method(key) => names.has(&key.name),
        Decl::Class(_) => false,
        Decl::Ctor(_) => false,
        Decl::Local(_) => false,
    }
}

/// The same of all.
fn are_among(names: &Apart<'_>, decls: &[Decl]) -> bool
    ensures { IsTrue result → pure.AreAmong (names_in names.now) (map decl_of decls.now) }
{
    for decl in decls {
        if !is_among(names, decl) {
            return false;
        }
    }
    true
}

/// Whether the local is one of the member.
fn is_of(local: &LocalKey, key: &MemberKey) -> bool
    ensures { IsTrue result ↔ ((local_key_of local.now).member ≡ member_key_of key.now) }
{
    local.member == *key
}

fn avoids_part(names: &Apart<'_>, part: &PartRef<'_, Span>) -> bool
    ensures { IsTrue result → AvoidsPart (names_in names.now) (part_of part.now) }
{
    match part {
        PartRef::Head(_) => true,
        PartRef::Member(member) => names.spares(member),
    }
}

/// What a member has to avoid, where the names are these. None where a class gets another name.
fn unaffected_by<'a>(names: Apart<'a>, decls: &'a [Decl]) -> Option<Unaffected<'a>>
    ensures { IfSome result (λ u. (u.names ≡ names.entry)
        × pure.AreAvoidable (names_in u.names) (pure.local_in u) (map decl_of decls.now)) }
{
    if let Some(local) = only_local(decls) {
        return Some(Unaffected {
            names,
            local: Some(local),
        });
    }
    if are_among(&names, decls) {
        Some(Unaffected { names, local: None })
    } else {
        None
    }
}

impl<'a> Unaffected<'a> {
    /// What a member has to avoid under this rename. None where that isn't told by names.
    fn of_rename(before: &'a Table, after: &'a Table, name: &'a NewName) -> Option<Unaffected<'a>>
        requires { after.now ≡ rows_to (renaming_of name.now) before.now }
        ensures { IfSome result (pure.IsUnaffectedBy before.now (renaming_of name.now)) }
    {
        match apart(before, after) {
            None => None,
            Some(names) => unaffected_by(names, name.decls.as_slice()),
        }
    }

    /// What a member has to avoid so that it is left as it is. None where that isn't told by names.
    pub(crate) fn new(tables: &Tables<'a>) -> Option<Unaffected<'a>>
        requires { AreTables tables.now }
        ensures { IfSome result (pure.IsUnaffected (keys_of tables.now.keys)
            tables.now.before.now) }
    {
        match tables.keys {
            KeyMapping::Same => None,
            KeyMapping::Renamed(name) => {
                Unaffected::of_rename(tables.before, tables.after, name)
            }
        }
    }

    /// Whether the local that gets another name, if it is one, is of another member.
    fn is_of_other(&self, key: &MemberKey) -> bool
        ensures { IsTrue result → pure.IsOfOther (pure.local_in self.now) (member_key_of key.now) }
    {
        match self.local {
            None => true,
            Some(local) => !is_of(local, key),
        }
    }

    /// Whether the member avoids all that.
    pub(crate) fn spares(&self, of: &WrittenMember<'_, Span>) -> bool
        ensures { IsTrue result → pure.AvoidsAll self.now (written_of of.now) }
    {
        if !self.is_of_other(&of.key) {
            return false;
        }
        if !self.names.spares_key(&of.key) {
            return false;
        }
        avoids_part(&self.names, &of.part)
    }
}
