//! The class that declares a declaration, and its name.
ghost use Rattle.std.specs.Prelude.{◌≡◌};
ghost use Rattle.jr_table.specs.TypeView.{class_key_of};
ghost use Rattle.jr_table.specs.KeyView.{decl_of, member_key_of};
ghost use Rattle.jr_table.specs.Entries.{class_of, class_of_member, name_of};

use jr_table::{ClassKey, Decl, MemberKey};

fn class_of_member(member: &MemberKey) -> &ClassKey
    ensures { class_key_of result.now ≡ class_of_member (member_key_of member.now) }
{
    match member {
        MemberKey::Head(key) => key,
        MemberKey::Field(key) => &key.class,
        MemberKey::Method(key) => &key.class,
        MemberKey::Ctor(key) => &key.class,
    }
}

/// The class that declares it; of a class, the class itself.
pub(crate) fn declaring_class(decl: &Decl) -> &ClassKey
    ensures { class_key_of result.now ≡ class_of (decl_of decl.now) }
{
    match decl {
        Decl::Class(key) => key,
        Decl::Field(key) => &key.class,
        Decl::Method(key) => &key.class,
        Decl::Ctor(key) => &key.class,
        Decl::Local(key) => class_of_member(&key.member),
    }
}

/// The declared name; of a constructor or a local, nothing.
pub(crate) fn declared_name(decl: &Decl) -> &str
    ensures { result.now ≡ name_of (decl_of decl.now) }
{
    match decl {
        Decl::Class(key) => key.name.as_str(),
        Decl::Field(key) => key.name.as_str(),
        Decl::Method(key) => key.name.as_str(),
        Decl::Ctor(_) => "",
        Decl::Local(_) => "",
    }
}
