//! Where a program declares something: declarations, in file and text order.
use jr_ast::{ModWord, Name};

/// A type as written, with the place of its first byte.
#[derive(Clone, Copy, Drop)]
pub enum Written<'a> {
    Int,
    Boolean,
    /// A class, perhaps written behind the class that it is a member of.
    Named {
        at: u32,
        outer: Option<&'a str>,
        name: &'a str,
    },
}

/// A class: its name, behind that of the class that it is a member of.
#[derive(Clone, Copy, PartialEq, Eq, Hash, Drop)]
pub struct DeclaredKey<'a> {
    pub name: &'a str,
    pub outer: Option<&'a str>,
}

#[derive(Clone, Copy, Drop)]
pub struct DeclaredParam<'a> {
    pub at: u32,
    pub name: &'a str,
    pub written: Written<'a>,
}

/// An initializer: its place, and whether it has a form that a static field's may have.
#[derive(Clone, Copy, Drop)]
pub struct DeclaredInit {
    pub at: u32,
    pub is_simple: bool,
}

#[derive(Drop)]
pub struct DeclaredClass<'a> {
    /// Where the name stands, as in the other declarations.
    pub at: u32,
    pub key: DeclaredKey<'a>,
    pub modifiers: Vec<ModWord>,
    pub parent: Option<Written<'a>>,
    /// Whether a constructor is written.
    pub has_ctor: bool,
}

#[derive(Drop)]
pub struct DeclaredField<'a> {
    pub at: u32,
    pub of: DeclaredKey<'a>,
    pub name: &'a Name,
    pub modifiers: Vec<ModWord>,
    pub written: Written<'a>,
    pub init: Option<DeclaredInit>,
}

#[derive(Drop)]
pub struct DeclaredMethod<'a> {
    pub at: u32,
    pub of: DeclaredKey<'a>,
    pub name: &'a Name,
    pub modifiers: Vec<ModWord>,
    /// None is `void`.
    pub result: Option<Written<'a>>,
    pub params: Vec<DeclaredParam<'a>>,
}

#[derive(Drop)]
pub struct DeclaredCtor<'a> {
    pub at: u32,
    pub of: DeclaredKey<'a>,
    pub modifiers: Vec<ModWord>,
    pub params: Vec<DeclaredParam<'a>>,
}

#[derive(Drop)]
pub enum DeclaredKind<'a> {
    Class(DeclaredClass<'a>),
    Field(DeclaredField<'a>),
    Method(DeclaredMethod<'a>),
    Ctor(DeclaredCtor<'a>),
}

/// A declaration, and the number of its file.
#[derive(Drop)]
pub struct DeclaredItem<'a> {
    pub file: u32,
    pub item: DeclaredKind<'a>,
}
