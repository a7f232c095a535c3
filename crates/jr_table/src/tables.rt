//! The table of a program's declarations.
ghost use Rattle.std.specs.Prelude.{◌≡◌, ◌↔◌, map, length, IfOk, IsTrue, option_map, slice_get};

use crate::class_index::ClassIndex;
use crate::classes::ClassKey;
use crate::entries::{Entry, Kind};
use crate::member_index::members;
use crate::numbering::entries;
use crate::rows::Row;
use crate::spans::Spans;
use jr_index::Linked;
use std::alloc::{AllocError, Global};
use std::marker::Model;

/// The declarations of a program. Contracts see the rows.
#[derive(Drop)]
pub struct Table {
    rows: Vec<Row>,
    entries: Vec<Entry>,
    classes: ClassIndex,
    members: Linked,
    spans: Spans,
}

impl Model for Table {
    ghost use Rattle.std.specs.Prelude.{List, map};
    ghost use Rattle.jr_table.specs.Rows as pure;
    ghost use Rattle.jr_table.specs.RowView.{row_of};
    ghost use Rattle.jr_table.specs.Keeps.{Keeps};

    ghost Value = { List pure.Row };

    ghost view = { λ t. map row_of t.rows.items };

    ghost invariant = { λ t. Keeps (map row_of t.rows.items)
        t.entries.items t.classes t.members t.spans };
}

impl Table {
    ghost use Rattle.jr_table.specs.TypeView.{class_key_of};
    ghost use Rattle.jr_table.specs.RowView.{row_of};
    ghost use Rattle.jr_table.specs.Conditions.{AreRows};
    ghost use Rattle.jr_table.specs.Decls.{class_decl};
    ghost use Rattle.jr_table.specs.Entries.{number_of, entries_of};
    ghost use Rattle.jr_table.specs.Chains.{parent_of, outer_of};
    ghost use Rattle.jr_table.specs.ClassIndex.{FindsClasses};
    ghost use Rattle.jr_table.specs.MemberIndex.{LinksMembers};
    ghost use Rattle.jr_table.specs.Spans.{AreSpans};

    /// The table that has exactly these rows, in this order.
    ///
    /// The prelude's rows stand in front, no two rows have one key, each class that a row names has
    /// a row, and no class is its own superclass through others (JLS 8.1.4).
    pub fn of_rows(alloc: Global, rows: Vec<Row>) -> Result<Table, AllocError>
        requires { AreRows (map row_of rows.items) }
        ensures { IfOk result (λ table. table ≡ map row_of rows.items) }
    {
        let classes = ClassIndex::of_rows(alloc, &rows)?;
        let entries = entries(alloc, &rows, &classes)?;
        let members = members(alloc, &entries)?;
        let spans = Spans::of_rows(alloc, &entries)?;
        Ok(Table {
            rows,
            entries,
            classes,
            members,
            spans,
        })
    }

    /// The rows, the prelude's in front.
    pub fn rows(&self) -> &[Row]
        ensures { map row_of result.now ≡ self.now }
    {
        self.rows.as_slice()
    }

    /// Whether it has exactly these rows, in this order.
    pub fn has_rows(&self, rows: &[Row]) -> bool
        ensures { IsTrue result ↔ (self.now ≡ map row_of rows.now) }
    {
        self.rows.as_slice() == rows
    }

    /// What its rows meet, for who needs it in a proof.
    pub fn keeps_rows(&self)
        ensures { AreRows self.now }
    {
        // The model's invariant is known once a field is read.
        let _rows = self.rows.len();
    }

    /// The rows by number.
    pub fn entries(&self) -> &[Entry]
        ensures { result.now ≡ entries_of self.now }
    {
        self.entries.as_slice()
    }

    /// The row of a number.
    pub fn entry(&self, number: u32) -> Option<&Entry>
        ensures { option_map (λ e. e.now) result ≡ slice_get (entries_of self.now) number }
    {
        self.entries.as_slice().get(number as usize)
    }

    /// How many rows there are.
    pub fn count(&self) -> u32
        ensures { result ≡ length self.now }
    {
        self.rows.len() as u32
    }

    /// The classes by their keys.
    pub(crate) fn classes(&self) -> &ClassIndex
        ensures { FindsClasses self.now result.now }
    {
        &self.classes
    }

    /// The members of each class by name.
    pub(crate) fn members(&self) -> &Linked
        ensures { LinksMembers (entries_of self.now) result.now }
    {
        &self.members
    }

    /// The classes within their superclasses.
    pub(crate) fn spans(&self) -> &Spans
        ensures { AreSpans (entries_of self.now) result.now }
    {
        &self.spans
    }

    /// The number of a class's row.
    pub fn class_number(&self, key: &ClassKey) -> Option<u32>
        ensures { result ≡ number_of self.now (class_decl (class_key_of key.now)) }
    {
        self.classes.find(key)
    }

    /// The superclass of a class.
    pub fn parent_of(&self, class: u32) -> Option<u32>
        ensures { result ≡ parent_of (entries_of self.now) class }
    {
        match self.entries.get(class as usize) {
            None => None,
            Some(entry) => entry.parent,
        }
    }

    /// The class that a class is a member of.
    pub fn outer_of(&self, class: u32) -> Option<u32>
        ensures { result ≡ outer_of (entries_of self.now) class }
    {
        match self.entries.get(class as usize) {
            None => None,
            Some(entry) => entry.outer,
        }
    }
}
