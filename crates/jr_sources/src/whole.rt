//! A whole program, as it is lent to refactorings.
ghost use Rattle.std.specs.Prelude.{◌≡◌, ◌<◌, Some, IfSome, map, length, slice_get, option_map};
ghost use Rattle.jr_lex.specs.Lexes.{Lexes};
ghost use Rattle.jr_ast.specs.View.{unit_of};
ghost use Rattle.jr_sources.specs.Analysed.{AreLexed, IsAnalysis};
ghost use Rattle.jr_sources.specs.BindingErrors.{AreSound};
ghost use Rattle.jr_sources.specs.KeptReadings.{AreReadings};
ghost use Rattle.jr_sources.specs.Sources.{texts_of};
ghost use Rattle.jr_sources.specs.Whole.{program_of, files_of, bounds_of, AreWhole, IsProgramOf};
ghost use Rattle.jr_sources.specs.WholeView.{whole_of};

use crate::analyses::Analysis;
use crate::kept::Readings;
use crate::reading_laws::text_has_one_reading;
use crate::sources::Sources;
use jr_ast::Unit;
use jr_bind::{Bound, View};
use jr_lex::{Item, items_are_placed, one_answer};
use jr_members::members_are_written;
use jr_program::{MemberBound, Tokens};
use jr_table::Table;
use jr_text::{Span, Text};
use std::marker::Model;

/// Sources without faults and errors, what they read as, their tokens, and what was analysed of
/// them. Contracts see the program.
#[derive(Drop)]
pub struct Whole<'a> {
    sources: &'a Sources,
    units: &'a [Unit<Span>],
    tokens: &'a [Tokens],
    analysis: &'a Analysis,
}

impl<'a> Model for Whole<'a> {
    ghost use Rattle.std.specs.Prelude.{List, map};
    ghost use Rattle.jr_text.specs.declared.spans.Span as mark;
    ghost use Rattle.jr_ast.specs.declared.members.Unit as raw;
    ghost use Rattle.jr_ast.specs.View.{unit_of};
    ghost use Rattle.jr_table.specs.Rows.{Row};
    ghost use Rattle.jr_program.specs.declared.bounds.MemberBound as bounds;
    ghost use Rattle.jr_sources.specs.Sources.{Source};
    ghost use Rattle.jr_sources.specs.Whole.{AreWhole};
    ghost use Rattle.jr_ast.specs.contracts.members.Class as classes;
    ghost use Rattle.jr_text.specs.contracts.spans.Span as spans;
    ghost use Rattle.std.specs.Coded.{codes};

    ghost Value = { List Source
        × (List (raw.Unit mark.Span) × (List Row × List bounds.MemberBound)) };

    ghost coded = { Prim.hlevel (codes, (classes.the_row spans.the_row).coded) };

    ghost view = { λ w. (
      w.sources.now,
      (
        w.units.now,
        (
          w.analysis.now.table,
          w.analysis.now.members.items,
        ),
      ),
    ) };

    ghost invariant = { λ w. AreWhole w.sources.now (map unit_of w.units.now) w.tokens.now
        w.analysis.now.table w.analysis.now.members.items };
}

impl<'a> Whole<'a> {
    // The program that these are.
    fn of(
        sources: &'a Sources,
        units: &'a [Unit<Span>],
        tokens: &'a [Tokens],
        analysis: &'a Analysis,
    ) -> Whole<'a>
        requires { AreWhole sources.now (map unit_of units.now) tokens.now analysis.now.table
            analysis.now.members.items }
        ensures { whole_of result ≡ program_of sources.now (map unit_of units.now)
            analysis.now.table analysis.now.members.items }
    {
        Whole {
            sources,
            units,
            tokens,
            analysis,
        }
    }

    /// The program that sources without faults and errors are, by what each file reads as and what
    /// was analysed of them.
    pub fn new(sources: &'a Sources, readings: &'a Readings, analysis: &'a Analysis) -> Whole<'a>
        requires readings { AreReadings (texts_of sources.now) readings.now }
        requires analysis { IsAnalysis sources.now analysis.now }
        requires sound { AreSound sources.now }
        ensures program { IsProgramOf sources.now (whole_of result) }
        ensures rows { (whole_of result).rows ≡ analysis.now.table }
    {
        text_has_one_reading();
        one_answer();
        items_are_placed();
        members_are_written::<Span>();
        analysis.table.keeps_rows();
        // Each file is within its limit, and so the members can be counted.
        let _total = sources.total();
        let tokens = readings.tokens.as_slice();
        Whole::of(sources, readings.units.as_slice(), tokens, analysis)
    }
}

// The name of a file.
fn name_in<'a>(sources: &'a Sources, units: &[Unit<Span>], file: u32) -> &'a str
    requires many { length units.now ≡ length sources.now }
    requires file { file < length (files_of sources.now (map unit_of units.now)) }
    ensures { option_map (λ f. f.name)
        (slice_get (files_of sources.now (map unit_of units.now)) file) ≡ Some result.now }
{
    sources.name(file).unwrap()
}

// The text of a file.
fn text_in<'a>(sources: &'a Sources, units: &[Unit<Span>], file: u32) -> &'a Text
    requires many { length units.now ≡ length sources.now }
    requires file { file < length (files_of sources.now (map unit_of units.now)) }
    ensures { option_map (λ f. f.text)
        (slice_get (files_of sources.now (map unit_of units.now)) file) ≡ Some result.now }
{
    sources.text(file)
}

// The items of a file's text.
fn items_in<'a>(
    sources: &Sources,
    units: &[Unit<Span>],
    tokens: &'a [Tokens],
    file: u32,
) -> &'a [Item]
    requires many { length units.now ≡ length sources.now }
    requires lexed { AreLexed (texts_of sources.now) tokens.now }
    requires file { file < length (files_of sources.now (map unit_of units.now)) }
    ensures { IfSome (slice_get (files_of sources.now (map unit_of units.now)) file)
        (λ f. Lexes f.text result.now) }
{
    tokens[file as usize].items()
}

// What binding knows of the member of a number.
fn bound_in(members: &[MemberBound], number: u32) -> &Bound
    requires { number < length (bounds_of members.now) }
    ensures { slice_get (bounds_of members.now) number ≡ Some result.now }
{
    &members[number as usize].bound
}

impl View<Span> for Whole<'_> {
    ghost program = { λ w. whole_of w };

    fn keeps_program(&self) {
        // The model's invariant is known once a field is read.
        let _count = self.sources.count();
    }

    fn file_count(&self) -> u32 {
        self.sources.count()
    }

    fn name(&self, file: u32) -> &str {
        name_in(self.sources, self.units, file)
    }

    fn text(&self, file: u32) -> &Text {
        text_in(self.sources, self.units, file)
    }

    fn items(&self, file: u32) -> &[Item] {
        items_in(self.sources, self.units, self.tokens, file)
    }

    fn units(&self) -> &[Unit<Span>] {
        self.units
    }

    fn table(&self) -> &Table {
        &self.analysis.table
    }

    fn bound_count(&self) -> u32 {
        self.analysis.members.len() as u32
    }

    fn bound(&self, number: u32) -> &Bound {
        bound_in(self.analysis.members.as_slice(), number)
    }
}
