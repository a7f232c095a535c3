//! What is kept of the texts that were read.
ghost use Rattle.std.specs.Prelude.{◌≡◌, ◌<◌, ◌++◌, ◌∷◌, [], length, slice_get, slice_set};
ghost use Rattle.std.specs.Prelude.{IfOk, OnOk, Some};

use crate::faults::ReadingFault;
use crate::readings::Reading;
use jr_ast::Unit;
use jr_program::Tokens;
use jr_text::Span;
use std::alloc::{AllocError, Global};
use std::mem;

/// The readings of the files, by their numbers: units side by side, as the table is built from
/// them, with the places of their first tokens, with all their tokens, and with the faults. A file
/// with a fault has a unit without classes, and no tokens.
pub struct Readings {
    pub units: Vec<Unit<Span>>,
    pub words: Vec<u32>,
    pub tokens: Vec<Tokens>,
    pub faults: Vec<Option<ReadingFault>>,
}

// Written out, so that it is proved here: what is derived is proved anew in each crate above, with
// all trees.
impl Drop for Readings {
    fn drop(self) {
        let Readings {
            units: _,
            words: _,
            tokens: _,
            faults: _,
        } = self;
    }
}

impl Readings {
    /// No readings, with room for those of so many files.
    pub fn with_capacity(alloc: Global, count: usize) -> Result<Readings, AllocError>
        ensures units { IfOk result (λ r. r.units.items ≡ []) }
        ensures words { IfOk result (λ r. r.words.items ≡ []) }
        ensures tokens { IfOk result (λ r. r.tokens.items ≡ []) }
        ensures faults { IfOk result (λ r. r.faults.items ≡ []) }
    {
        // What is dearest to let go comes last.
        let words = Vec::with_capacity(alloc, count)?;
        let faults = Vec::with_capacity(alloc, count)?;
        let tokens = Vec::with_capacity(alloc, count)?;
        let units = Vec::with_capacity(alloc, count)?;
        Ok(Readings {
            units,
            words,
            tokens,
            faults,
        })
    }

    /// Puts the reading of one more file behind the others.
    pub fn push(&mut self, reading: Reading) -> Result<(), AllocError>
        ensures units { OnOk result
            (self.new.units.items ≡ self.old.units.items ++ reading.unit ∷ []) }
        ensures words { OnOk result
            (self.new.words.items ≡ self.old.words.items ++ reading.word ∷ []) }
        ensures tokens { OnOk result
            (self.new.tokens.items ≡ self.old.tokens.items ++ reading.tokens ∷ []) }
        ensures faults { OnOk result
            (self.new.faults.items ≡ self.old.faults.items ++ reading.fault ∷ []) }
    {
        // All room is made first, so that no part has to be let go.
        self.words.reserve(1)?;
        self.faults.reserve(1)?;
        self.tokens.reserve(1)?;
        self.units.reserve(1)?;
        let (unit, word, tokens, fault) = reading.parts();
        self.units.push_reserved(unit);
        self.words.push_reserved(word);
        self.tokens.push_reserved(tokens);
        self.faults.push_reserved(fault);
        Ok(())
    }

    /// Puts a reading in the place of that of the file of the number, and hands out the one that
    /// was there.
    pub fn exchange(&mut self, number: u32, reading: Reading) -> Reading
        requires units { number < length self.old.units.items }
        requires words { number < length self.old.words.items }
        requires tokens { number < length self.old.tokens.items }
        requires faults { number < length self.old.faults.items }
        ensures units { self.new.units.items ≡ slice_set self.old.units.items number reading.unit }
        ensures words { self.new.words.items ≡ slice_set self.old.words.items number reading.word }
        ensures tokens { self.new.tokens.items
            ≡ slice_set self.old.tokens.items number reading.tokens }
        ensures faults { self.new.faults.items
            ≡ slice_set self.old.faults.items number reading.fault }
        ensures unit { slice_get self.old.units.items number ≡ Some result.unit }
        ensures word { slice_get self.old.words.items number ≡ Some result.word }
        ensures items { slice_get self.old.tokens.items number ≡ Some result.tokens }
        ensures fault { slice_get self.old.faults.items number ≡ Some result.fault }
    {
        let at = number as usize;
        let (unit, word, tokens, fault) = reading.parts();
        let unit = mem::replace(&mut self.units[at], unit);
        let word = mem::replace(&mut self.words[at], word);
        let tokens = mem::replace(&mut self.tokens[at], tokens);
        let fault = mem::replace(&mut self.faults[at], fault);
        Reading {
            unit,
            word,
            tokens,
            fault,
        }
    }
}
