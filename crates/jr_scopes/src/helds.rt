//! Locals and parameters in scope.
use jr_ast::Name;
use jr_table::{Kind, Ty};

/// The type that a local is declared with.
#[derive(Clone, Copy, Drop)]
pub enum HeldType<'a> {
    Int,
    Boolean,
    /// A parameter's, as its member's key has it.
    Known(&'a Ty),
    /// A class, perhaps written behind the class that it is a member of.
    Named(Option<&'a Name>, &'a Name),
}

/// A local or parameter in scope.
#[derive(Clone, Copy, Drop)]
pub struct Held<'a> {
    pub name: &'a Name,
    /// Parameters first, then locals in text order, from 0.
    pub number: u32,
    pub is_final: bool,
    pub ty: HeldType<'a>,
    pub has_init: bool,
    /// The type that `ty` is, unless it names no class.
    pub kind: Option<Kind>,
}
