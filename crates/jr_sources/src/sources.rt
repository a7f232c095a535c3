//! The files of a session, by name and by position.
ghost use Rattle.std.specs.Prelude.{◌≡◌, ◌<◌, ◌++◌, ◌∷◌, [], length, MatchOption, Some, slice_get};
ghost use Rattle.std.specs.Prelude.{IfOk, IfSome, IsSome, OnErr, All, ◌≤◌, string_bytes};
ghost use Rattle.jr_text.specs.Texts.{text_limit};
ghost use Rattle.jr_sources.specs.Sources.{AreSources, LacksFile, HasName, file_limit};
ghost use Rattle.jr_sources.specs.Sources.{texts_of, total_of, with_text};

use indexmap::IndexMap;
use jr_text::Text;
use std::alloc::{AllocError, Global};
use std::marker::Model;
use std::mem;

/// How many files a session has at most.
pub const MAX_FILES: u32 = 256;

/// How many bytes the files of a session have at most, together.
pub const MAX_TOTAL_LEN: u64 = 8_388_608;

/// Files, each with a name of its own.
pub struct Sources {
    files: IndexMap<String, Text>,
}

// Written out, so that it is proved here: what is derived is proved anew in each crate above.
impl Drop for Sources {
    fn drop(self) {
        let Sources { files: _ } = self;
    }
}

impl Model for Sources {
    ghost use Rattle.std.specs.Prelude.{List};
    ghost use Rattle.jr_sources.specs.Sources.{Source, AreSources};
    ghost use Rattle.jr_sources.specs.SourceView.{sources_of};

    ghost Value = { List Source };

    ghost view = { λ s. sources_of s.files.entries };

    ghost invariant = { λ s. AreSources (sources_of s.files.entries) };
}

impl Sources {
    /// No files. It takes no memory.
    pub fn new(alloc: Global) -> Sources
        ensures { result ≡ [] }
    {
        Sources {
            files: IndexMap::new(alloc),
        }
    }

    /// How many files there are.
    pub fn count(&self) -> u32
        ensures count { result ≡ length self.now }
        ensures valid { AreSources self.now }
    {
        self.files.len() as u32
    }

    /// The number of the file of the name.
    pub fn find(&self, name: &str) -> Option<u32>
        ensures found { MatchOption result (LacksFile self.now name.now)
            (λ number. HasName self.now number name.now) }
        ensures valid { AreSources self.now }
    {
        match self.files.get_index_of(name) {
            None => None,
            Some(number) => Some(number as u32),
        }
    }

    /// The text of the file of the number.
    pub fn text(&self, number: u32) -> &Text
        requires { number < length self.now }
        ensures { slice_get (texts_of self.now) number ≡ Some result.now }
    {
        &self.files[number as usize]
    }

    /// The name of the file of the number.
    pub fn name(&self, number: u32) -> Option<&str>
        ensures name { IfSome result (λ name. HasName self.now number name.now) }
        ensures within { number < length self.now → IsSome result }
    {
        match self.files.get_index(number as usize) {
            None => None,
            Some((name, _)) => Some(name.as_str()),
        }
    }

    /// Puts a file behind the others, unless one has its name: then that one's number is answered.
    pub fn add(&mut self, name: String, text: Text) -> Result<Option<u32>, AllocError>
        requires { length self.old < file_limit }
        ensures ok { IfOk result (λ met. MatchOption met
            (LacksFile self.old (string_bytes name)
            × (self.new ≡ self.old ++ record { name = string_bytes name; text = text } ∷ []))
            (λ number. HasName self.old number (string_bytes name) × (self.new ≡ self.old))) }
        ensures err { OnErr result (self.new ≡ self.old) }
    {
        if let Some(number) = self.find(name.as_str()) {
            return Ok(Some(number));
        }
        match self.files.insert(name, text) {
            Ok(_) => Ok(None),
            Err(_) => Err(AllocError),
        }
    }

    /// Gives the file of the number another text, and hands out the one that it had.
    pub fn exchange(&mut self, number: u32, text: Text) -> Text
        requires { number < length self.old }
        ensures becomes { self.new ≡ with_text self.old number text }
        ensures had { slice_get (texts_of self.old) number ≡ Some result }
    {
        mem::replace(&mut self.files[number as usize], text)
    }

    /// How many bytes the files have together.
    pub fn total(&self) -> u64
        ensures total { result ≡ total_of (texts_of self.now) }
        ensures within { All (λ text. length text ≤ text_limit) (texts_of self.now) }
        ensures valid { AreSources self.now }
    {
        let mut total = 0;
        for number in 0..self.count() {
            total += u64::from(self.text(number).len());
        }
        total
    }
}
