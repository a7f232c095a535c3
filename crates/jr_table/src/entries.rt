//! Rows by number: each class that a row names goes by the number of its row.
use jr_ast::Name;
use std::marker::Model;

/// A type (JLS 4.1), `void`, or the type of `null`.
#[derive(Clone, Copy, PartialEq, Eq, Hash, Debug, Drop)]
pub enum Kind {
    Int,
    Boolean,
    Void,
    Null,
    /// The class of this row.
    Class(u32),
}

/// What a row declares.
#[derive(Clone, Copy, PartialEq, Eq, Debug, Drop)]
pub enum Sort {
    Class,
    Field,
    Method,
    Ctor,
    /// No program has a row of a local.
    Local,
}

/// Types of parameters. Contracts see the list.
#[derive(Drop)]
pub struct Kinds {
    kinds: Vec<Kind>,
}

impl Model for Kinds {
    ghost use Rattle.std.specs.Prelude.{List};
    ghost use Rattle.jr_table.specs.declared.entries.Kind.{Kind};

    ghost Value = { List Kind };

    ghost view = { λ k. k.kinds.items };
}

/// A row by number.
#[derive(Drop)]
pub struct Entry {
    pub sort: Sort,
    /// The class that declares it; of a class, the class itself.
    pub class: u32,
    /// The declared name; of a constructor, nothing.
    pub name: Name,
    pub params: Kinds,
    /// A field's type, or a method's result.
    pub kind: Option<Kind>,
    /// A class's superclass.
    pub parent: Option<u32>,
    /// The class that a class is a member of.
    pub outer: Option<u32>,
    pub is_static: bool,
    pub is_private: bool,
}

impl Kinds {
    ghost use Rattle.std.specs.Prelude.{◌≡◌};

    /// The list of these types.
    pub fn from_vec(kinds: Vec<Kind>) -> Kinds
        ensures { result ≡ kinds.items }
    {
        Kinds { kinds }
    }

    /// The types.
    pub fn as_slice(&self) -> &[Kind]
        ensures { result.now ≡ self.now }
    {
        self.kinds.as_slice()
    }
}
