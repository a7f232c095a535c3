//! What an answer shows.
ghost use Rattle.std.specs.Prelude.{◌≡◌, ◌↔◌, IsTrue, option_map, slice_get};
ghost use Rattle.jr_table.specs.TypeView.{class_key_of};
ghost use Rattle.jr_table.specs.KeyView.{decl_of};
ghost use Rattle.jr_table.specs.Entries.{entries_of};
ghost use Rattle.jr_table.specs.Access.{is_instance_at};
ghost use Rattle.jr_table.specs.declared.answers.Answer.TheVariants as raw;
ghost use Rattle.jr_table.specs.Found.{one};
ghost use Rattle.jr_table.specs.Lookup.{decl_at, shown_one};
ghost use Rattle.jr_table.specs.Lookup as lookup;
ghost use Rattle.jr_table.specs.Meanings.{class_found};
ghost use Rattle.jr_table.specs.Context.{IsStaticDecl, IsInstanceDecl};

use jr_table::{Answer, ClassKey, Decl, Table};

/// Whether a row declares it.
fn declares(table: &Table, number: u32, target: &Decl) -> bool
    ensures { IsTrue result
        ↔ (shown_one one (decl_at table.now number) ≡ one (decl_of target.now)) }
{
    match table.rows().get(number as usize) {
        None => false,
        Some(row) => row.decl == *target,
    }
}

/// Whether this one declaration is found.
pub(crate) fn is_one(table: &Table, answer: Answer, target: &Decl) -> bool
    ensures { IsTrue result ↔ (lookup.shown table.now answer ≡ one (decl_of target.now)) }
{
    match answer {
        Answer::One(number) => declares(table, number, target),
        Answer::Nothing => false,
        Answer::Many(_, _) => false,
        Answer::NotAccessible(_) => false,
        Answer::FromStatic(_) => false,
    }
}

/// Whether nothing is found.
pub(crate) fn is_nothing(answer: Answer) -> bool
    ensures { IsTrue result ↔ (answer ≡ raw.Nothing) }
{
    match answer {
        Answer::One(_) => false,
        Answer::Nothing => true,
        Answer::Many(_, _) => false,
        Answer::NotAccessible(_) => false,
        Answer::FromStatic(_) => false,
    }
}

/// Whether a row is an instance member.
fn is_instance(table: &Table, number: u32) -> bool
    ensures { result ≡ is_instance_at (entries_of table.now) number }
{
    match table.entry(number) {
        None => false,
        Some(entry) => !entry.is_static,
    }
}

/// Whether this one declaration is found, and is no static one.
pub(crate) fn is_one_on_value(table: &Table, answer: Answer, target: &Decl) -> bool
    ensures { IsTrue result ↔ ((lookup.shown table.now answer ≡ one (decl_of target.now))
        × (IsStaticDecl table.now (decl_of target.now) → ⊥)) }
{
    table.keeps_rows();
    match answer {
        Answer::One(number) => declares(table, number, target) & is_instance(table, number),
        Answer::Nothing => false,
        Answer::Many(_, _) => false,
        Answer::NotAccessible(_) => false,
        Answer::FromStatic(_) => false,
    }
}

/// Whether this one declaration is found, and is no instance one.
pub(crate) fn is_one_on_class(table: &Table, answer: Answer, target: &Decl) -> bool
    ensures { IsTrue result ↔ ((lookup.shown table.now answer ≡ one (decl_of target.now))
        × (IsInstanceDecl table.now (decl_of target.now) → ⊥)) }
{
    table.keeps_rows();
    match answer {
        Answer::One(number) => declares(table, number, target) & !is_instance(table, number),
        Answer::Nothing => false,
        Answer::Many(_, _) => false,
        Answer::NotAccessible(_) => false,
        Answer::FromStatic(_) => false,
    }
}

/// The class that a row declares.
fn class_of_row(table: &Table, number: u32) -> Option<&ClassKey>
    ensures { option_map (λ k. class_key_of k.now) result
        ≡ class_found (shown_one one (decl_at table.now number)) }
{
    match table.rows().get(number as usize) {
        None => None,
        Some(row) => class_of_decl(&row.decl),
    }
}

fn class_of_decl(decl: &Decl) -> Option<&ClassKey>
    ensures { option_map (λ k. class_key_of k.now) result
        ≡ class_found (one (decl_of decl.now)) }
{
    match decl {
        Decl::Class(key) => Some(key),
        Decl::Field(_) => None,
        Decl::Method(_) => None,
        Decl::Ctor(_) => None,
        Decl::Local(_) => None,
    }
}

/// The class that is found, if one is.
pub(crate) fn class_at(table: &Table, answer: Answer) -> Option<&ClassKey>
    ensures { option_map (λ k. class_key_of k.now) result
        ≡ class_found (lookup.shown table.now answer) }
{
    match answer {
        Answer::One(number) => class_of_row(table, number),
        Answer::Nothing => None,
        Answer::Many(_, _) => None,
        Answer::NotAccessible(_) => None,
        Answer::FromStatic(_) => None,
    }
}
