//! Rows with which a new name collides.
ghost use Rattle.std.specs.Prelude.{◌≡◌, ◌<◌, ℕ, None, Some, true, IfSome, map, slice_get};
ghost use Rattle.std.specs.List.{list_any};
ghost use Rattle.jr_table.specs.declared.rows.Row as raw;
ghost use Rattle.jr_table.specs.TypeView.{class_key_of};
ghost use Rattle.jr_table.specs.KeyView.{decl_of};
ghost use Rattle.jr_table.specs.RowView.{row_of};
ghost use Rattle.jr_images.specs.Clashes.{ClassClashes};
ghost use Rattle.jr_rename.specs.RowClashes as pure;
ghost use Rattle.jr_rename.specs.RowClashes.{IsFirstRow, NoRowHas, OneTakesPlace};

use jr_ast::Name;
use jr_table::{ClassKey, Decl, Row};

fn has_none(name: &Option<Name>) -> bool
    ensures { result ≡ pure.has_none name.now }
{
    match name {
        None => true,
        Some(_) => false,
    }
}

fn is_outer(outer: &Option<Name>, name: &Name) -> bool
    ensures { result ≡ pure.is_outer outer.now name.now }
{
    match outer {
        None => false,
        Some(outer) => outer == name,
    }
}

/// Whether a class is the member class of this name.
fn is_member_class(class: &ClassKey, of: &ClassKey, name: &Name) -> bool
    ensures { result
        ≡ pure.is_member_class (class_key_of class.now) (class_key_of of.now) name.now }
{
    has_none(&of.outer) & ((&class.name == name) & is_outer(&class.outer, &of.name))
}

/// Whether the first of two classes is a member class of the second, a top-level one.
fn is_within(class: &ClassKey, of: &ClassKey) -> bool
    ensures { result ≡ pure.is_within (class_key_of class.now) (class_key_of of.now) }
{
    is_outer(&class.outer, &of.name) & has_none(&of.outer)
}

/// Whether a renamed declaration takes the place of another.
fn takes_place(renamed: &Decl, new: &Name, decl: &Decl) -> bool
    ensures { result ≡ pure.takes_place (decl_of renamed.now) new.now (decl_of decl.now) }
{
    match renamed {
        Decl::Field(field) => match decl {
            Decl::Field(other) => (&other.name == new) & (&other.class == &field.class),
            Decl::Class(other) => is_member_class(other, &field.class, new),
            Decl::Method(_) => false,
            Decl::Ctor(_) => false,
            Decl::Local(_) => false,
        },
        Decl::Method(method) => match decl {
            Decl::Method(other) => {
                (&other.name == new)
                    & (&other.class == &method.class)
                    & (&other.params == &method.params)
            }
            Decl::Class(other) => is_member_class(other, &method.class, new),
            Decl::Field(_) => false,
            Decl::Ctor(_) => false,
            Decl::Local(_) => false,
        },
        Decl::Class(_) => false,
        Decl::Ctor(_) => false,
        Decl::Local(_) => false,
    }
}

/// Whether a declaration has the name. A constructor and a local have none.
fn is_named(decl: &Decl, name: &Name) -> bool
    ensures { result ≡ pure.is_named (decl_of decl.now) name.now }
{
    match decl {
        Decl::Class(key) => &key.name == name,
        Decl::Field(key) => &key.name == name,
        Decl::Method(key) => &key.name == name,
        Decl::Ctor(_) => false,
        Decl::Local(_) => false,
    }
}

fn some_takes_place(renamed: &[Decl], new: &Name, decl: &Decl) -> bool
    ensures { result ≡ list_any (λ r. pure.takes_place (decl_of r) new.now (decl_of decl.now))
        renamed.now }
{
    renamed.iter().any(|one| takes_place(one, new, decl))
}

/// Whether one of the renamed declarations takes the place of another: only where that one has the
/// name already, so the others aren't compared.
fn one_takes_place(renamed: &[Decl], new: &Name, decl: &Decl) -> bool
    ensures { result
        ≡ pure.one_takes_place (map decl_of renamed.now) new.now (decl_of decl.now) }
{
    if is_named(decl, new) {
        some_takes_place(renamed, new, decl)
    } else {
        false
    }
}

/// Whether a class of another name clashes with a declaration.
fn class_clashes(key: &ClassKey, new: &Name, decl: &Decl) -> bool
    ensures { result
        ≡ pure.class_clashes (class_key_of key.now) new.now (decl_of decl.now) }
{
    match decl {
        Decl::Class(other) => (&other.name == new) & !(other == key),
        Decl::Field(field) => (&field.name == new) & is_within(key, &field.class),
        Decl::Method(method) => (&method.name == new) & is_within(key, &method.class),
        Decl::Ctor(_) => false,
        Decl::Local(_) => false,
    }
}

fn class_hit<'a>(rows: &'a [Row], key: &ClassKey, new: &Name) -> Option<&'a Decl>
    ensures some { IfSome result (λ d. (n : ℕ) × (r : raw.Row) × (slice_get rows.now n ≡ Some r)
        × (pure.class_clashes (class_key_of key.now) new.now (decl_of r.decl) ≡ true)
        × (d.now ≡ r.decl)
        × ((m : ℕ) (x : raw.Row) → m < n → slice_get rows.now m ≡ Some x
        → pure.class_clashes (class_key_of key.now) new.now (decl_of x.decl) ≡ true → ⊥)) }
    ensures none { result ≡ None → (m : ℕ) (x : raw.Row) → slice_get rows.now m ≡ Some x
        → pure.class_clashes (class_key_of key.now) new.now (decl_of x.decl) ≡ true → ⊥ }
{
    for row in rows {
        if class_clashes(key, new, &row.decl) {
            return Some(&row.decl);
        }
    }
    None
}

fn member_hit<'a>(rows: &'a [Row], renamed: &[Decl], new: &Name) -> Option<&'a Decl>
    ensures some { IfSome result (λ d. (n : ℕ) × (r : raw.Row) × (slice_get rows.now n ≡ Some r)
        × (pure.one_takes_place (map decl_of renamed.now) new.now (decl_of r.decl) ≡ true)
        × (d.now ≡ r.decl)
        × ((m : ℕ) (x : raw.Row) → m < n → slice_get rows.now m ≡ Some x
        → pure.one_takes_place (map decl_of renamed.now) new.now (decl_of x.decl) ≡ true → ⊥)) }
    ensures none { result ≡ None → (m : ℕ) (x : raw.Row) → slice_get rows.now m ≡ Some x
        → pure.one_takes_place (map decl_of renamed.now) new.now (decl_of x.decl) ≡ true → ⊥ }
{
    for row in rows {
        if one_takes_place(renamed, new, &row.decl) {
            return Some(&row.decl);
        }
    }
    None
}

/// The first declaration with which a class collides that gets the name: another class of it, at
/// either level, or a field or method of the class around (JLS 7.6, 8.5).
pub fn class_clash<'a>(rows: &'a [Row], key: &ClassKey, new: &Name) -> Option<&'a Decl>
    ensures some { IfSome result (λ d. IsFirstRow (map row_of rows.now)
        (ClassClashes (class_key_of key.now) new.now) (decl_of d.now)) }
    ensures none { result ≡ None → NoRowHas (map row_of rows.now)
        (ClassClashes (class_key_of key.now) new.now) }
{
    class_hit(rows, key, new)
}

/// The first declaration whose place one of these fields and methods takes where they get the
/// name (JLS 8.3, 8.4, 8.5).
pub fn member_clash<'a>(rows: &'a [Row], renamed: &[Decl], new: &Name) -> Option<&'a Decl>
    ensures some { IfSome result (λ d. IsFirstRow (map row_of rows.now)
        (OneTakesPlace (map decl_of renamed.now) new.now) (decl_of d.now)) }
    ensures none { result ≡ None → NoRowHas (map row_of rows.now)
        (OneTakesPlace (map decl_of renamed.now) new.now) }
{
    member_hit(rows, renamed, new)
}
