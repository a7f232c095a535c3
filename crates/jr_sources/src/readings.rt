//! Texts are read: each becomes a unit, or has a fault.
ghost use Rattle.std.specs.Prelude.{◌≡◌, ℕ, List, IfOk, Some, None, MatchOption};
ghost use Rattle.jr_lex.specs.declared.items.Item.{Item};
ghost use Rattle.jr_lex.specs.Lexes.{Lexes};
ghost use Rattle.jr_lex.specs.Answers.{IsFault};
ghost use Rattle.jr_lex.specs.Depth.{AreWithin};
ghost use Rattle.jr_ast.specs.View.{unit_of};
ghost use Rattle.jr_sources.specs.ReadingFaults.{IsReading, first_token_at};

use crate::faults::{FaultKind, ReadingFault};
use jr_ast::Unit;
use jr_lex::{Item, ItemKind, LexFault, lex, measure};
use jr_pexpr::ParseFault;
use jr_program::Tokens;
use jr_punit::parse_unit;
use jr_text::{Span, Text};
use std::alloc::{AllocError, Global};

/// What a text reads as. A text with a fault has a unit without classes and no tokens, which say
/// nothing.
pub struct Reading {
    pub unit: Unit<Span>,
    /// Where the first token begins.
    pub word: u32,
    pub tokens: Tokens,
    pub fault: Option<ReadingFault>,
}

// Written out, so that it is proved here: what is derived is proved anew in each crate above, with
// all trees.
impl Drop for Reading {
    fn drop(self) {
        let Reading {
            unit: _,
            word: _,
            tokens: _,
            fault: _,
        } = self;
    }
}

impl Reading {
    // The parts. What has a written drop is taken apart by its own calls alone.
    pub(crate) fn parts(self) -> (Unit<Span>, u32, Tokens, Option<ReadingFault>)
        ensures unit { result.0 ≡ self.unit }
        ensures word { result.1 ≡ self.word }
        ensures tokens { result.2 ≡ self.tokens }
        ensures fault { result.3 ≡ self.fault }
    {
        let Reading {
            unit,
            word,
            tokens,
            fault,
        } = self;
        (unit, word, tokens, fault)
    }
}

// The reading of a text that has a fault.
fn faulty(alloc: Global, at: u32, kind: FaultKind) -> Result<Reading, AllocError>
    ensures { IfOk result (λ r. r.fault ≡ Some (record { at = at; kind = kind })) }
{
    let tokens = Tokens::new(alloc, Vec::new(alloc))?;
    let mark = Span { from: 0, to: 0 };
    Ok(Reading {
        unit: Unit {
            mark,
            package: Vec::new(alloc),
            classes: Vec::new(alloc),
        },
        word: 0,
        tokens,
        fault: Some(ReadingFault { at, kind }),
    })
}

// Where the first token of the items begins.
fn first_token(items: &[Item]) -> u32
    ensures { result ≡ first_token_at items.now }
{
    for item in items {
        match item.kind {
            ItemKind::Token(_) => return item.span.from,
            ItemKind::Blank | ItemKind::Comment => {}
        }
    }
    0
}

// The reading of a text that has these items and reads as this unit.
fn with_items(alloc: Global, unit: Unit<Span>, items: Vec<Item>) -> Result<Reading, AllocError>
    requires { (text : List ℕ) × Lexes text items.items }
    ensures unit { IfOk result (λ r. r.unit ≡ unit) }
    ensures word { IfOk result (λ r. r.word ≡ first_token_at items.items) }
    ensures tokens { IfOk result (λ r. r.tokens ≡ items.items) }
    ensures fault { IfOk result (λ r. r.fault ≡ None) }
{
    let word = first_token(items.as_slice());
    let tokens = Tokens::new(alloc, items)?;
    Ok(Reading {
        unit,
        word,
        tokens,
        fault: None,
    })
}

// What a text with these items reads as.
fn unit_of_items(alloc: Global, text: &Text, items: Vec<Item>) -> Result<Reading, AllocError>
    requires lexes { Lexes text.now items.items }
    requires within { AreWithin items.items }
    ensures { IfOk result (λ r. IsReading text.now (unit_of r.unit) r.word r.tokens r.fault) }
{
    match parse_unit(alloc, text, items.as_slice()) {
        Ok(unit) => with_items(alloc, unit, items),
        Err(ParseFault::Syntax { at }) => faulty(alloc, at, FaultKind::Syntax),
        Err(ParseFault::Memory) => Err(AllocError),
    }
}

// What a text that has no items reads as.
fn lexical(alloc: Global, fault: LexFault) -> Result<Reading, AllocError>
    ensures { (text : List ℕ) → IsFault text fault
        → IfOk result (λ r. IsReading text (unit_of r.unit) r.word r.tokens r.fault) }
{
    match fault {
        LexFault::BadByte { at } => faulty(alloc, at, FaultKind::BadByte),
        LexFault::OpenComment { at } => faulty(alloc, at, FaultKind::OpenComment),
        LexFault::OpenString { at } => faulty(alloc, at, FaultKind::OpenString),
        LexFault::Escape { at } => faulty(alloc, at, FaultKind::Escape),
        LexFault::BadNumber { at } => faulty(alloc, at, FaultKind::BadNumber),
        LexFault::Memory => Err(AllocError),
    }
}

/// What a text reads as: its unit and its tokens, or its first fault, a lexical one before one of
/// depth, and that before one of syntax.
pub fn read(alloc: Global, text: &Text) -> Result<Reading, AllocError>
    ensures { IfOk result (λ r. IsReading text.now (unit_of r.unit) r.word r.tokens r.fault) }
{
    match lex(alloc, text) {
        Err(fault) => lexical(alloc, fault),
        Ok(items) => match measure(items.as_slice()) {
            Err(deep) => faulty(alloc, deep.at, FaultKind::Deep),
            Ok(()) => unit_of_items(alloc, text, items),
        },
    }
}
