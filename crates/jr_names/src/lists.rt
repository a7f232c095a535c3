//! Lists in values that pass from crate to crate. Contracts see each as the list that it holds.
ghost use Rattle.std.specs.Prelude.{◌≡◌, map};
ghost use Rattle.jr_table.specs.KeyView.{decl_of};

use jr_ast::Name;
use jr_table::Decl;
use jr_text::EditList;
use std::marker::Model;

/// A list of names, as those of files.
#[derive(Drop)]
pub struct Names {
    names: Vec<Name>,
}

impl Model for Names {
    ghost use Rattle.std.specs.Prelude.{List, ℕ};

    ghost Value = { List (List ℕ) };

    ghost view = { λ n. n.names.items };
}

impl Names {
    /// The list of these names.
    pub fn from_vec(names: Vec<Name>) -> Names
        ensures { result ≡ names.items }
    {
        Names { names }
    }

    /// The names.
    pub fn as_slice(&self) -> &[Name]
        ensures { result.now ≡ self.now }
    {
        self.names.as_slice()
    }
}

/// The lines that are shown.
#[derive(Drop)]
pub struct Lines {
    lines: Vec<Name>,
}

impl Model for Lines {
    ghost use Rattle.std.specs.Prelude.{List, ℕ};

    ghost Value = { List (List ℕ) };

    ghost view = { λ l. l.lines.items };
}

impl Lines {
    /// The list of these lines.
    pub fn from_vec(lines: Vec<Name>) -> Lines
        ensures { result ≡ lines.items }
    {
        Lines { lines }
    }

    /// The lines.
    pub fn as_slice(&self) -> &[Name]
        ensures { result.now ≡ self.now }
    {
        self.lines.as_slice()
    }
}

/// The edits of each file, in the order of the files.
#[derive(Drop)]
pub struct EditLists {
    lists: Vec<EditList>,
}

impl Model for EditLists {
    ghost use Rattle.std.specs.Prelude.{List};
    ghost use Rattle.jr_text.specs.Edits.{Entry};

    ghost Value = { List (List Entry) };

    ghost view = { λ e. e.lists.items };
}

impl EditLists {
    /// The list of these lists.
    pub fn from_vec(lists: Vec<EditList>) -> EditLists
        ensures { result ≡ lists.items }
    {
        EditLists { lists }
    }

    /// The lists.
    pub fn as_slice(&self) -> &[EditList]
        ensures { result.now ≡ self.now }
    {
        self.lists.as_slice()
    }
}

/// What old declarations become: each with the declaration of the new program that stands for it.
#[derive(Drop)]
pub struct Renaming {
    pairs: Vec<(Decl, Decl)>,
}

impl Model for Renaming {
    ghost use Rattle.std.specs.Prelude.{List, map};
    ghost use Rattle.jr_table.specs.Decls as decls;
    ghost use Rattle.jr_table.specs.KeyView.{decl_of};

    ghost Value = { List (decls.Decl × decls.Decl) };

    ghost view = { λ r. map (λ p. (decl_of p.0, decl_of p.1)) r.pairs.items };
}

impl Renaming {
    /// The list of these pairs, each of an old and a new declaration.
    pub fn from_vec(pairs: Vec<(Decl, Decl)>) -> Renaming
        ensures { result ≡ map (λ p. (decl_of p.0, decl_of p.1)) pairs.items }
    {
        Renaming { pairs }
    }

    /// The pairs.
    pub fn as_slice(&self) -> &[(Decl, Decl)]
        ensures { map (λ p. (decl_of p.0, decl_of p.1)) result.now ≡ self.now }
    {
        self.pairs.as_slice()
    }
}
