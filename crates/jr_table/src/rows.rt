//! Rows: what a program declares, one a class, field, method or constructor.
ghost use Rattle.std.specs.Prelude.{◌≡◌, ◌↔◌, IfOk, IsTrue, Contains, option_map};
ghost use Rattle.jr_table.specs.TypeView.{class_key_of, ty_of};
ghost use Rattle.jr_table.specs.RowView.{row_of};

use crate::classes::ClassKey;
use crate::decls::Decl;
use crate::types::Ty;
use jr_ast::ModWord;
use std::alloc::{AllocError, Global};
use std::marker::Model;

/// The modifiers of a declaration, as written. Contracts see the list.
#[derive(Drop)]
pub struct Mods {
    words: Vec<ModWord>,
}

impl Model for Mods {
    ghost use Rattle.std.specs.Prelude.{List};
    ghost use Rattle.jr_ast.specs.declared.operators.ModWord.{ModWord};

    ghost Value = { List ModWord };

    ghost view = { λ m. m.words.items };
}

impl Mods {
    /// The list of these words.
    pub fn from_vec(words: Vec<ModWord>) -> Mods
        ensures { result ≡ words.items }
    {
        Mods { words }
    }

    /// The words.
    pub fn as_slice(&self) -> &[ModWord]
        ensures { result.now ≡ self.now }
    {
        self.words.as_slice()
    }

    /// Whether the word is among them.
    pub fn has(&self, word: ModWord) -> bool
        ensures { IsTrue result ↔ Contains self.now word }
    {
        self.words.contains(&word)
    }

    /// The same list once more.
    pub fn copy(&self, alloc: Global) -> Result<Mods, AllocError>
        ensures { IfOk result (λ m. m ≡ self.now) }
    {
        let words = self.words.as_slice().to_vec(alloc)?;
        Ok(Mods { words })
    }

    /// Whether both are the same words in the same order.
    fn is_same(&self, other: &Mods) -> bool
        ensures { IsTrue result ↔ (self.now ≡ other.now) }
    {
        self.words == other.words
    }
}

/// A declaration, its modifiers and its types.
#[derive(Drop)]
pub struct Row {
    pub decl: Decl,
    pub modifiers: Mods,
    /// A field's type, or a method's result.
    pub ty: Option<Ty>,
    /// A class's superclass.
    pub parent: Option<ClassKey>,
    /// Whether it is a field with an initializer.
    pub has_init: bool,
}

impl Row {
    /// The same row once more.
    pub fn copy(&self, alloc: Global) -> Result<Row, AllocError>
        ensures { IfOk result (λ r. row_of r ≡ row_of self.now) }
    {
        let has_init = self.has_init;
        let modifiers = self.modifiers.copy(alloc)?;
        let parent = copy_maybe_class(&self.parent)?;
        let ty = copy_maybe_ty(&self.ty)?;
        let decl = self.decl.copy()?;
        Ok(Row {
            decl,
            modifiers,
            ty,
            parent,
            has_init,
        })
    }
}

impl PartialEq for Row {
    ghost use Rattle.std.specs.Ordering.{on};
    ghost use Rattle.std.specs.Cmp as order;
    ghost use Rattle.jr_table.specs.RowView.{row_of};
    ghost use Rattle.jr_table.specs.SameRows.{same_row, same_row_equiv};

    ghost eq = { on row_of same_row };

    ghost laws = { order.partial_equiv_from_equiv (order.on_equiv row_of same_row_equiv) };

    fn eq(&self, other: &Row) -> bool
        ensures { IsTrue result ↔ (row_of self.now ≡ row_of other.now) }
    {
        let same_decl = self.decl == other.decl;
        let same_words = self.modifiers.is_same(&other.modifiers);
        let same_ty = self.ty == other.ty;
        let same_parent = self.parent == other.parent;
        let same_init = self.has_init == other.has_init;
        same_decl & same_words & same_ty & same_parent & same_init
    }
}

fn copy_maybe_class(key: &Option<ClassKey>) -> Result<Option<ClassKey>, AllocError>
    ensures { IfOk result (λ k. option_map class_key_of k ≡ option_map class_key_of key.now) }
{
    match key {
        None => Ok(None),
        Some(key) => Ok(Some(key.copy()?)),
    }
}

fn copy_maybe_ty(ty: &Option<Ty>) -> Result<Option<Ty>, AllocError>
    ensures { IfOk result (λ t. option_map ty_of t ≡ option_map ty_of ty.now) }
{
    match ty {
        None => Ok(None),
        Some(ty) => Ok(Some(ty.copy()?)),
    }
}
