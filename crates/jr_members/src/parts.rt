//! Parts of a program that are members of their own.
ghost use Rattle.std.specs.Prelude.{◌≡◌};
ghost use Rattle.jr_ast.specs.View.{member_of, members_of};
ghost use Rattle.jr_table.specs.DeclaredItems.{writes_ctor};

use jr_ast::{Class, Member, MemberKind};

/// The head of a class, or a field, method or constructor, as it is written.
#[derive(Drop)]
pub enum PartRef<'a, A> {
    Head(&'a Class<A>),
    Member(&'a Member<A>),
}

/// A part, the number of its file, and where its parent begins.
#[derive(Drop)]
pub(crate) struct Placed<'a, A> {
    pub(crate) file: u32,
    pub(crate) base: u32,
    pub(crate) part: PartRef<'a, A>,
}
