//! Sessions: the sources, with what can be undone and redone.
ghost use Rattle.std.specs.Prelude.{◌≡◌, ◌≢◌, ℕ, ◌<◌, ◌^◌, ◌↔◌, [], length, IfOk, IfErr, OnOk};
ghost use Rattle.std.specs.Prelude.{IsTrue, MatchOption};
ghost use Rattle.jr_session.specs.Beginning.{CanBegin, IsBeginFault};
ghost use Rattle.jr_sources.specs.SourceView.{sources_of};
ghost use Rattle.jr_sources.specs.Sources.{IsFile, LacksFile};
ghost use Rattle.jr_session.specs.States.{begun};

use crate::begins::{BeginFault, readings_of, sources_from};
use crate::changes::Earlier;
use jr_sources::{Analysis, Readings, Sources};
use jr_text::Text;
use std::alloc::Global;
use std::marker::Model;

/// The sources of a program while they are changed.
///
/// What each file reads as is kept beside its text, and is what reading that text from scratch
/// gives; so is what was analysed of all of them, which an edit, an undoing and a redoing drop. A
/// change keeps the text that was there before it, not the texts of the other files.
pub struct Session {
    pub(crate) sources: Sources,
    pub(crate) readings: Readings,
    pub(crate) undo: Vec<Earlier>,
    pub(crate) redo: Vec<Earlier>,
    // What was analysed of these sources, for all members or for none.
    pub(crate) analysed: Option<Analysis>,
    // How many bytes of lines were shown.
    pub(crate) shown: u64,
}

// Written out, so that it is proved here: what is derived is proved anew in each crate above, with
// all trees that a session holds.
impl Drop for Session {
    fn drop(self) {
        let Session {
            sources: _,
            readings: _,
            undo: _,
            redo: _,
            analysed: _,
            shown: _,
        } = self;
    }
}

impl Model for Session {
    ghost use Rattle.jr_session.specs.States.{State};
    ghost use Rattle.jr_sources.specs.Sources.{texts_of};
    ghost use Rattle.jr_session.specs.Changes.{history};
    ghost use Rattle.jr_session.specs.Kept.{IsKept};

    ghost Value = { State };

    ghost view = { λ s. record {
      files = s.sources;
      undo = history (texts_of s.sources) s.undo.items;
      redo = history (texts_of s.sources) s.redo.items;
      shown = s.shown;
    } };

    ghost invariant = { λ s. IsKept s.sources s.readings s.undo.items s.redo.items s.analysed };
}

impl Session {
    /// A session with these files, in this order, each with its name.
    ///
    /// `TooMany` exactly where there are more than 256 files, else `SameName` where two have one
    /// name, else `TotalTooLong` where they have more than 8,388,608 bytes together.
    pub fn begin(alloc: Global, files: Vec<(String, Text)>) -> Result<Session, BeginFault>
        requires { length files.items < 2 ^ 32 }
        ensures ok { IfOk result (λ session. session ≡ begun (sources_of files.items)) }
        ensures valid { OnOk result (CanBegin (sources_of files.items)) }
        // Each fault comes only where it applies and none before it does.
        ensures fault { IfErr result (IsBeginFault (sources_of files.items)) }
    {
        let sources = sources_from(alloc, files)?;
        let readings = readings_of(alloc, &sources)?;
        Ok(Session {
            sources,
            readings,
            undo: Vec::new(alloc),
            redo: Vec::new(alloc),
            analysed: None,
            shown: 0,
        })
    }

    /// The text of the file of the name, if there is one.
    pub fn text(&self, file: &str) -> Option<&str>
        ensures { MatchOption result (LacksFile self.now.files file.now)
            (λ text. (number : ℕ) × IsFile self.now.files number file.now text.now) }
    {
        match self.sources.find(file) {
            None => None,
            Some(number) => Some(self.sources.text(number).as_str()),
        }
    }

    /// Whether a change can be undone.
    pub fn can_undo(&self) -> bool
        ensures { IsTrue result ↔ (self.now.undo ≢ []) }
    {
        !self.undo.as_slice().is_empty()
    }

    /// Whether an undoing can be redone.
    pub fn can_redo(&self) -> bool
        ensures { IsTrue result ↔ (self.now.redo ≢ []) }
    {
        !self.redo.as_slice().is_empty()
    }
}
