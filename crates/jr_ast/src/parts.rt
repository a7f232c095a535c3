//! The parts of declarations that hold no expression: modifiers, types as written and parameters.
use crate::names::Ident;
use crate::operators::ModWord;

/// A modifier (JLS 8.1.1, 8.3.1, 8.4.3).
#[derive(Drop)]
pub struct Modifier<A> {
    pub mark: A,
    pub word: ModWord,
}

/// A type as written (JLS 4.1, 6.5.5).
#[derive(Drop)]
pub struct TypeRef<A> {
    pub mark: A,
    pub kind: TypeKind<A>,
}

/// The kinds of types.
#[derive(Drop)]
pub enum TypeKind<A> {
    Int,
    Boolean,
    /// A class, perhaps written behind the class that it is a member of.
    Named(Option<Ident<A>>, Ident<A>),
}

/// A parameter (JLS 8.4.1).
#[derive(Drop)]
pub struct Param<A> {
    pub mark: A,
    pub is_final: bool,
    pub ty: TypeRef<A>,
    pub name: Ident<A>,
}
