//! Methods of the prelude that a new name would change.
ghost use Rattle.std.specs.Prelude.{◌≡◌, ℕ, List, Some, None, true, IfOk, IfSome, IfNone};
ghost use Rattle.std.specs.Prelude.{map, slice_get, if◌then◌else◌};
ghost use Rattle.jr_table.specs.declared.decls.Decl as raw;
ghost use Rattle.jr_table.specs.ExpressionRules.{IsObjectMethod};
ghost use Rattle.jr_table.specs.Notes as notes;
ghost use Rattle.jr_table.specs.KeyView.{decl_of};
ghost use Rattle.jr_names.specs.DeclTexts as texts;
ghost use Rattle.jr_images.specs.Families.{AreRenamed};
ghost use Rattle.jr_images.specs.Refusals.{ChangesPrelude};
ghost use Rattle.jr_dispatch.specs.Told as pure;
ghost use Rattle.jr_dispatch.specs.Told.{IsTold};

use jr_ast::Name;
use jr_names::decl_text;
use jr_table::{Decl, Table};
use std::alloc::{AllocError, Global};

/// Whether the name is one of Object's nine methods, which no program declares (JLS 4.3.2).
fn is_object_method(name: &str) -> bool
    ensures { result ≡ notes.is_object_method name.now }
{
    (name == "equals")
        | (name == "hashCode")
        | (name == "toString")
        | (name == "getClass")
        | (name == "notify")
        | (name == "notifyAll")
        | (name == "wait")
        | (name == "clone")
        | (name == "finalize")
}

/// Whether it is the number of a row of the prelude, which has eight.
fn is_early(number: Option<u32>) -> bool
    ensures { result ≡ pure.is_early number }
{
    match number {
        None => false,
        Some(number) => number < 8,
    }
}

/// Whether it is a method of the prelude.
fn is_prelude_method(table: &Table, decl: &Decl) -> bool
    ensures { result ≡ pure.is_prelude_method table.now (decl_of decl.now) }
{
    match decl {
        Decl::Method(key) => is_early(table.method_number(key)),
        Decl::Class(_) => false,
        Decl::Field(_) => false,
        Decl::Ctor(_) => false,
        Decl::Local(_) => false,
    }
}

/// The method of the prelude among these.
fn prelude_member<'a>(table: &Table, family: &'a [Decl]) -> Option<&'a Decl>
    ensures some { IfSome result (λ d. (n : ℕ) × (x : raw.Decl)
        × (slice_get family.now n ≡ Some x)
        × (pure.is_prelude_method table.now (decl_of x) ≡ true) × (d.now ≡ x)) }
    ensures none { result ≡ None → (m : ℕ) (x : raw.Decl) → slice_get family.now m ≡ Some x
        → pure.is_prelude_method table.now (decl_of x) ≡ true → ⊥ }
{
    for decl in family {
        if is_prelude_method(table, decl) {
            return Some(decl);
        }
    }
    None
}

/// The text of a declaration, as what is told.
fn some_text(alloc: Global, decl: &Decl) -> Result<Option<Name>, AllocError>
    ensures { IfOk result (λ o. o ≡ Some (texts.decl_text (decl_of decl.now))) }
{
    let text = decl_text(alloc, decl)?;
    Ok(Some(text))
}

/// The name, if it is one of Object's methods.
fn object_method(alloc: Global, new: &Name) -> Result<Option<Name>, AllocError>
    ensures { IfOk result (λ o. o
        ≡ (if notes.is_object_method new.now then Some new.now else None)) }
{
    if !is_object_method(new.as_str()) {
        return Ok(None);
    }
    let name = Name::new(alloc, new.as_str())?;
    Ok(Some(name))
}

/// What is told of a method's family that gets the name.
fn family_told(
    alloc: Global,
    table: &Table,
    family: &[Decl],
    new: &Name,
) -> Result<Option<Name>, AllocError>
    ensures some { IfOk result (λ o. IfSome o
        (IsTold table.now (map decl_of family.now) new.now)) }
    ensures none { IfOk result (λ o. IfNone o ((text : List ℕ)
        → IsTold table.now (map decl_of family.now) new.now text → ⊥)) }
{
    table.keeps_rows();
    match prelude_member(table, family) {
        Some(member) => some_text(alloc, member),
        None => object_method(alloc, new),
    }
}

/// The method that a method's new name would change: that of the prelude which is in its family,
/// or else one of Object's nine, whose name it would get (JLS 4.3.2). `None` exactly where there is
/// none.
pub fn prelude_method(
    alloc: Global,
    table: &Table,
    target: &Decl,
    family: &[Decl],
    new: &Name,
) -> Result<Option<Name>, AllocError>
    requires { AreRenamed table.now (decl_of target.now) (map decl_of family.now) }
    ensures told { IfOk result (λ o. IfSome o
        (λ text. ChangesPrelude table.now (decl_of target.now) new.now text)) }
    ensures none { IfOk result (λ o. IfNone o ((text : List ℕ)
        → ChangesPrelude table.now (decl_of target.now) new.now text → ⊥)) }
{
    match target {
        Decl::Method(_) => family_told(alloc, table, family, new),
        Decl::Class(_) => Ok(None),
        Decl::Field(_) => Ok(None),
        Decl::Ctor(_) => Ok(None),
        Decl::Local(_) => Ok(None),
    }
}
