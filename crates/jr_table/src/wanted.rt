//! What is looked for among the members of a class.
ghost use Rattle.std.specs.Prelude.{◌≡◌};
ghost use Rattle.jr_table.specs.Looking as looking;
ghost use Rattle.jr_table.specs.Wanted.{passes};

use crate::entries::{Entry, Kind, Sort};

/// What is looked for among the members of a class.
#[derive(Clone, Copy, Drop)]
pub enum Wanted<'a> {
    Field(&'a str),
    /// A member type.
    Inner(&'a str),
    Method(&'a str, &'a [Kind]),
    /// A method that is neither private nor static.
    Virtual(&'a str, &'a [Kind]),
}

pub(crate) fn same_kind(left: Kind, right: Kind) -> bool
    ensures { result ≡ looking.same_kind left right }
{
    match (left, right) {
        (Kind::Int, Kind::Int) => true,
        (Kind::Boolean, Kind::Boolean) => true,
        (Kind::Void, Kind::Void) => true,
        (Kind::Null, Kind::Null) => true,
        (Kind::Class(left), Kind::Class(right)) => left == right,
        _ => false,
    }
}

pub(crate) fn same_kinds(left: &[Kind], right: &[Kind]) -> bool
    ensures { result ≡ looking.same_kinds left.now right.now }
{
    let mut left = left;
    let mut right = right;
    loop {
        match (left.split_first(), right.split_first()) {
            (None, None) => return true,
            (Some((first, rest)), Some((second, others))) => {
                if !same_kind(*first, *second) {
                    return false;
                }
                left = rest;
                right = others;
            }
            _ => return false,
        }
    }
}

fn is_field(entry: &Entry, class: u32, name: &str) -> bool
    ensures { result ≡ looking.is_field name.now class entry.now }
{
    match entry.sort {
        Sort::Field => (entry.class == class) & (entry.name.as_str() == name),
        _ => false,
    }
}

fn is_type(entry: &Entry, class: u32, name: &str) -> bool
    ensures { result ≡ looking.is_type name.now class entry.now }
{
    match (entry.sort, entry.outer) {
        (Sort::Class, Some(outer)) => (outer == class) & (entry.name.as_str() == name),
        _ => false,
    }
}

fn is_method(entry: &Entry, class: u32, name: &str, params: &[Kind]) -> bool
    ensures { result ≡ looking.is_method name.now params.now class entry.now }
{
    match entry.sort {
        Sort::Method => {
            (entry.class == class)
                & (entry.name.as_str() == name)
                & same_kinds(entry.params.as_slice(), params)
        }
        _ => false,
    }
}

/// Whether a row declares in a class what is looked for.
pub(crate) fn is_wanted(entry: &Entry, class: u32, wanted: &Wanted<'_>) -> bool
    ensures { result ≡ passes wanted.now class entry.now }
{
    match *wanted {
        Wanted::Field(name) => is_field(entry, class, name),
        Wanted::Inner(name) => is_type(entry, class, name),
        Wanted::Method(name, params) => is_method(entry, class, name, params),
        Wanted::Virtual(name, params) => {
            is_method(entry, class, name, params) & !entry.is_private & !entry.is_static
        }
    }
}
