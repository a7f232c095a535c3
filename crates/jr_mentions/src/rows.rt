//! Two tables side by side: whether their rows are the same but for the names of some fields and
//! methods.
ghost use Rattle.std.specs.Prelude.{
  ◌≡◌,
  ◌↔◌,
  ℕ,
  List,
  [],
  ◌∷◌,
  IfSome,
  IfNone,
  IsTrue,
  map,
  length,
  option_map,
  slice_get,
};
ghost use Rattle.jr_table.specs.TypeView.{class_key_of, ty_of};
ghost use Rattle.jr_table.specs.KeyView.{field_key_of, method_key_of, decl_of};
ghost use Rattle.jr_table.specs.RowView.{row_of};
ghost use Rattle.jr_mentions.specs.Apart.{FieldsApart, MethodsApart, DeclsApart, RowApart, AreApart};
ghost use Rattle.jr_mentions.specs.ApartView.{names_in};
ghost use Rattle.jr_mentions.specs.Settling.{Settles, RulesOut};
ghost use Rattle.jr_mentions.specs.RowSteps.{FieldStep, MethodStep, DeclStep, RowStep, IsSameRest};

use crate::names::Apart;
use jr_table::{ClassKey, Decl, FieldKey, MethodKey, Mods, Row, Table, Ty};

fn same_words(mods: &Mods, other: &Mods) -> bool
    ensures { IsTrue result ↔ (mods.now ≡ other.now) }
{
    mods.as_slice() == other.as_slice()
}

fn same_type(ty: &Option<Ty>, other: &Option<Ty>) -> bool
    ensures { IsTrue result ↔ (option_map ty_of ty.now ≡ option_map ty_of other.now) }
{
    ty == other
}

fn same_parent(parent: &Option<ClassKey>, other: &Option<ClassKey>) -> bool
    ensures { IsTrue result
        ↔ (option_map class_key_of parent.now ≡ option_map class_key_of other.now) }
{
    parent == other
}

fn same_init(has: bool, other: bool) -> bool
    ensures { IsTrue result ↔ (has ≡ other) }
{
    has == other
}

/// Whether two rows tell the same besides what they declare.
fn same_rest(row: &Row, other: &Row) -> bool
    ensures { IsTrue result ↔ IsSameRest (row_of row.now) (row_of other.now) }
{
    let words = same_words(&row.modifiers, &other.modifiers);
    let ty = same_type(&row.ty, &other.ty);
    let parent = same_parent(&row.parent, &other.parent);
    let init = same_init(row.has_init, other.has_init);
    words & ty & parent & init
}

/// The names with those of two fields of one class.
fn fields_apart<'a>(apart: &Apart<'a>, key: &'a FieldKey, other: &'a FieldKey) -> Option<Apart<'a>>
    ensures some { IfSome result (λ a. FieldStep (names_in apart.now) (names_in a)
        (field_key_of key.now) (field_key_of other.now)) }
    ensures settles { IfSome result (λ a. (field_key_of key.now ≡ field_key_of other.now → ⊥)
        → Settles (names_in apart.now) (names_in a)
        (λ ns. FieldsApart ns (field_key_of key.now) (field_key_of other.now))) }
    ensures none { IfNone result (RulesOut (names_in apart.now)
        (λ ns. FieldsApart ns (field_key_of key.now) (field_key_of other.now))) }
{
    let same = key.class == other.class;
    if same {
        apart.adding(&key.name, &other.name)
    } else {
        None
    }
}

/// The names with those of two methods of one class with the same parameters.
fn methods_apart<'a>(
    apart: &Apart<'a>,
    key: &'a MethodKey,
    other: &'a MethodKey,
) -> Option<Apart<'a>>
    ensures some { IfSome result (λ a. MethodStep (names_in apart.now) (names_in a)
        (method_key_of key.now) (method_key_of other.now)) }
    ensures settles { IfSome result (λ a. (method_key_of key.now ≡ method_key_of other.now → ⊥)
        → Settles (names_in apart.now) (names_in a)
        (λ ns. MethodsApart ns (method_key_of key.now) (method_key_of other.now))) }
    ensures none { IfNone result (RulesOut (names_in apart.now)
        (λ ns. MethodsApart ns (method_key_of key.now) (method_key_of other.now))) }
{
    let same = (key.class == other.class) & (key.params == other.params);
    if same {
        apart.adding(&key.name, &other.name)
    } else {
        None
    }
}

/// The names with those of two declarations that differ.
fn decls_apart<'a>(apart: &Apart<'a>, decl: &'a Decl, other: &'a Decl) -> Option<Apart<'a>>
    ensures some { IfSome result (λ a. DeclStep (names_in apart.now) (names_in a)
        (decl_of decl.now) (decl_of other.now)) }
    ensures settles { IfSome result (λ a. (decl_of decl.now ≡ decl_of other.now → ⊥)
        → Settles (names_in apart.now) (names_in a)
        (λ ns. DeclsApart ns (decl_of decl.now) (decl_of other.now))) }
    ensures none { IfNone result (RulesOut (names_in apart.now)
        (λ ns. DeclsApart ns (decl_of decl.now) (decl_of other.now))) }
{
    match decl {
        Decl::Field(key) => match other {
            Decl::Field(other) => fields_apart(apart, key, other),
            _ => None,
        },
        Decl::Method(key) => match other {
            Decl::Method(other) => methods_apart(apart, key, other),
            _ => None,
        },
        _ => None,
    }
}

/// The names with those of two rows, if the rows differ.
fn row_apart<'a>(apart: &Apart<'a>, row: &'a Row, other: &'a Row) -> Option<Apart<'a>>
    ensures some { IfSome result (λ a. RowStep (names_in apart.now) (names_in a)
        (row_of row.now) (row_of other.now)) }
    ensures settles { IfSome result (λ a. Settles (names_in apart.now) (names_in a)
        (λ ns. RowApart ns (row_of row.now) (row_of other.now))) }
    ensures none { IfNone result (RulesOut (names_in apart.now)
        (λ ns. RowApart ns (row_of row.now) (row_of other.now))) }
{
    if row == other {
        return Some(*apart);
    }
    if same_rest(row, other) {
        decls_apart(apart, &row.decl, &other.decl)
    } else {
        None
    }
}

fn row_at(rows: &[Row], number: usize) -> Option<&Row>
    ensures { option_map (λ r. r.now) result ≡ slice_get rows.now number }
{
    rows.get(number)
}

fn same_count(before: &[Row], after: &[Row]) -> bool
    ensures { IsTrue result ↔ (length before.now ≡ length after.now) }
{
    before.len() == after.len()
}

fn rows_apart<'a>(before: &'a [Row], after: &'a [Row]) -> Option<Apart<'a>>
    ensures some { IfSome result (λ a. AreApart (names_in a) (map row_of before.now)
        (map row_of after.now)) }
    ensures none { IfNone result ((old new : List ℕ)
        → AreApart (old ∷ new ∷ []) (map row_of before.now) (map row_of after.now) → ⊥) }
{
    if !same_count(before, after) {
        return None;
    }
    let mut apart = Apart::none();
    for number in 0..before.len() {
        let Some(first) = row_at(before, number) else {
            return None;
        };
        let Some(second) = row_at(after, number) else {
            return None;
        };
        let Some(next) = row_apart(&apart, first, second) else {
            return None;
        };
        apart = next;
    }
    Some(apart)
}

/// The names by which two programs differ, where their rows, one by one, are the same but for the
/// names of some fields and methods: none where all are the same, and else those of the first two
/// rows that differ. It answers `None` only where no two names would do.
pub fn apart<'a>(before: &'a Table, after: &'a Table) -> Option<Apart<'a>>
    ensures some { IfSome result (λ a. AreApart (names_in a) before.now after.now) }
    ensures none { IfNone result ((old new : List ℕ)
        → AreApart (old ∷ new ∷ []) before.now after.now → ⊥) }
{
    rows_apart(before.rows(), after.rows())
}
