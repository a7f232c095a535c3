//! What is known of a variable that is found.
ghost use Rattle.std.specs.Prelude.{◌≡◌, option_map, slice_get};
ghost use Rattle.std.specs.List.{list_any};
ghost use Rattle.jr_table.specs.RowView.{row_of};
ghost use Rattle.jr_table.specs.KeyView.{local_key_of, member_key_of};
ghost use Rattle.jr_table.specs.Entries as entries;
ghost use Rattle.jr_table.specs.Context.{is_final_word};
ghost use Rattle.jr_table.specs.Found.{one};
ghost use Rattle.jr_table.specs.Decls.{local_decl};
ghost use Rattle.jr_table.specs.Lookup.{shown};
ghost use Rattle.jr_scopes.specs.Helds.{numbered};
ghost use Rattle.jr_scopes.specs.Tracked.{Tracked, helds_of};
ghost use Rattle.jr_bind_expr.specs.Places.{context_of, member_of, Knows};
ghost use Rattle.jr_bind_expr.specs.Findings.{found_of};
ghost use Rattle.jr_bind_expr.specs.Abouts as pure;

use crate::findings::Finding;
use crate::places::Place;
use crate::rows::row_at;
use jr_ast::ModWord;
use jr_scopes::Locals;
use jr_table::{Answer, Decl, Kind, LocalKey, MemberKey, Mods, Row, Table};

/// What is known of a variable, or of whatever else is found.
#[derive(Clone, Copy, Drop)]
pub(crate) struct About {
    /// Its type, or a method's result.
    pub kind: Option<Kind>,
    pub is_final: bool,
    /// Final, and not to be assigned where the place is (JLS 4.12.4, 8.3.1.2).
    pub is_fixed: bool,
    /// Final, with an initializer.
    pub is_constant: bool,
    /// Declared behind the place, or by the declarator that the place is in (JLS 8.3.3).
    pub is_forward: bool,
}

/// Where not one declaration is found.
fn nothing() -> About
    ensures { result ≡ pure.nothing }
{
    About {
        kind: None,
        is_final: false,
        is_fixed: false,
        is_constant: false,
        is_forward: false,
    }
}

/// What is known of a local by itself.
#[derive(Clone, Copy, Drop)]
struct LocalFacts {
    kind: Option<Kind>,
    is_final: bool,
    has_init: bool,
}

/// What is known of the last local that has the number.
fn facts_of_local(locals: &Locals<'_>, number: u32) -> Option<LocalFacts>
    requires { Tracked locals.now }
    ensures { result ≡ option_map pure.facts_of (numbered number (helds_of locals.now)) }
{
    match locals.held_numbered(number) {
        None => None,
        Some(local) => Some(LocalFacts {
            kind: local.kind,
            is_final: local.is_final,
            has_init: local.has_init,
        }),
    }
}

fn is_own(own: Option<u32>, number: u32) -> bool
    ensures { result ≡ pure.is_own own number }
{
    match own {
        None => false,
        Some(own) => own == number,
    }
}

/// The local of the member that has the number.
fn about_local(place: &Place<'_>, number: u32) -> About
    requires { Tracked place.now.locals }
    ensures { result ≡ pure.about_local (pure.is_own place.now.own number)
        (option_map pure.facts_of (numbered number (helds_of place.now.locals))) }
{
    let is_forward = is_own(place.own, number);
    match facts_of_local(&place.locals, number) {
        None => About {
            kind: None,
            is_final: false,
            is_fixed: false,
            is_constant: false,
            is_forward,
        },
        Some(local) => About {
            kind: local.kind,
            is_final: local.is_final,
            is_fixed: local.is_final,
            is_constant: local.is_final & local.has_init,
            is_forward,
        },
    }
}

/// The local that a key names. No program has a row of a local.
fn about_key(table: &Table, place: &Place<'_>, key: &LocalKey) -> About
    requires { Knows table.now place.now }
    ensures { pure.IsAbout table.now (context_of place.now)
        (one (local_decl (local_key_of key.now))) result }
{
    if key.member == *place.member {
        about_local(place, key.number)
    } else {
        nothing()
    }
}

fn is_final_word(word: &ModWord) -> bool
    ensures { result ≡ is_final_word word.now }
{
    match word {
        ModWord::Final => true,
        _ => false,
    }
}

pub fn has_final(words: &Mods) -> bool
    ensures { result ≡ list_any is_final_word words.now }
{
    words.as_slice().iter().any(is_final_word)
}

fn is_ctor(member: &MemberKey) -> bool
    ensures { result ≡ pure.is_ctor (member_key_of member.now) }
{
    match member {
        MemberKey::Ctor(_) => true,
        MemberKey::Head(_) => false,
        MemberKey::Field(_) => false,
        MemberKey::Method(_) => false,
    }
}

fn is_field(member: &MemberKey) -> bool
    ensures { result ≡ pure.is_field (member_key_of member.now) }
{
    match member {
        MemberKey::Field(_) => true,
        MemberKey::Head(_) => false,
        MemberKey::Method(_) => false,
        MemberKey::Ctor(_) => false,
    }
}

/// Whether a row is an instance member of a class.
fn is_instance_of(table: &Table, number: u32, class: u32) -> bool
    ensures { result
        ≡ pure.is_instance_of (slice_get (entries.entries_of table.now) number) class }
{
    match table.entry(number) {
        None => false,
        Some(entry) => (class == entry.class) & !entry.is_static,
    }
}

pub fn kind_at(table: &Table, number: u32) -> Option<Kind>
    ensures { result ≡ pure.kind_at (slice_get (entries.entries_of table.now) number) }
{
    match table.entry(number) {
        None => None,
        Some(entry) => entry.kind,
    }
}

/// A field.
fn about_field(table: &Table, place: &Place<'_>, number: u32, row: &Row) -> About
    ensures { result ≡ pure.about_field (slice_get (entries.entries_of table.now) number)
        (member_of place.now) place.now.is_static place.now.class place.now.row number
        (row_of row.now) }
{
    let is_final = has_final(&row.modifiers);
    let is_near = is_instance_of(table, number, place.class);
    let is_blank = is_ctor(place.member) & is_near & !row.has_init;
    let is_behind = is_field(place.member) & is_near & (place.row <= number);
    About {
        kind: kind_at(table, number),
        is_final,
        is_fixed: is_final & !is_blank,
        is_constant: is_final & row.has_init,
        is_forward: !place.is_static & is_behind,
    }
}

/// A class, method or constructor.
fn about_other(table: &Table, number: u32, row: &Row) -> About
    ensures { result ≡ pure.about_other (slice_get (entries.entries_of table.now) number)
        (row_of row.now) }
{
    let is_final = has_final(&row.modifiers);
    About {
        kind: kind_at(table, number),
        is_final,
        is_fixed: is_final,
        is_constant: is_final & row.has_init,
        is_forward: false,
    }
}

/// What a row declares.
fn about_row(table: &Table, place: &Place<'_>, number: u32, row: &Row) -> About
    requires knows { Knows table.now place.now }
    requires stands { slice_get table.now number ≡ Some (row_of row.now) }
    ensures { pure.IsAbout table.now (context_of place.now) (shown table.now (Answer.One number))
        result }
{
    table.keeps_rows();
    match &row.decl {
        Decl::Local(key) => about_key(table, place, key),
        Decl::Field(_) => about_field(table, place, number, row),
        Decl::Class(_) => about_other(table, number, row),
        Decl::Method(_) => about_other(table, number, row),
        Decl::Ctor(_) => about_other(table, number, row),
    }
}

/// The row of a number, if there is one.
fn about_number(table: &Table, place: &Place<'_>, number: u32) -> About
    requires { Knows table.now place.now }
    ensures { pure.IsAbout table.now (context_of place.now) (shown table.now (Answer.One number))
        result }
{
    match row_at(table, number) {
        None => nothing(),
        Some(row) => about_row(table, place, number, row),
    }
}

/// What a lookup answers.
fn about_answer(table: &Table, place: &Place<'_>, answer: Answer) -> About
    requires { Knows table.now place.now }
    ensures { pure.IsAbout table.now (context_of place.now) (shown table.now answer) result }
{
    match answer {
        Answer::One(number) => about_number(table, place, number),
        Answer::Nothing => nothing(),
        Answer::Many(_, _) => nothing(),
        Answer::NotAccessible(_) => nothing(),
        Answer::FromStatic(_) => nothing(),
    }
}

/// What is known of what is found.
pub(crate) fn about_finding(table: &Table, place: &Place<'_>, finding: Finding) -> About
    requires { Knows table.now place.now }
    ensures { pure.IsAbout table.now (context_of place.now)
        (found_of table.now (member_of place.now) finding) result }
{
    match finding {
        Finding::Local(number) => about_local(place, number),
        Finding::Rows(answer) => about_answer(table, place, answer),
    }
}
