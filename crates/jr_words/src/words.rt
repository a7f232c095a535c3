//! Commands, and the words that mean them.
ghost use Rattle.std.specs.Prelude.{◌≡◌, ℕ, ◌⊎◌, [], ◌∷◌, ◌↔◌, IfOk, IfErr, IsTrue, MatchOption};
ghost use Rattle.std.specs.List.{AllByRecursion};
ghost use Rattle.jr_words.specs.Asked.{IsNoRename, IsWordsFault, command_of};
ghost use Rattle.jr_words.specs.Words.{AreWords, IsPlace, IsPlain, Mean, out_word, texts_of};

use crate::arguments::read_run;
use std::alloc::{AllocError, Global};
use thiserror::Error;

/// How many words a command line has at most.
pub const MAX_WORDS: u32 = 65_536;

/// The word of the one option.
pub(crate) const OUT: &str = "--out";

/// A word that names a file, and its number: words are counted from 0.
#[derive(Clone, Copy, Debug)]
pub struct Operand<'a> {
    pub word: u32,
    pub text: &'a str,
}

/// What a command line asks for.
#[derive(Debug, Drop)]
pub enum Command<'a> {
    /// To give what the identifier at the byte `at` of the file declares or is bound to the name.
    Rename {
        file: &'a str,
        at: u32,
        name: &'a str,
    },
    /// To do the steps of the script to the files. What changes is stored in the folder `out`, or
    /// in place of what was read.
    Run {
        out: Option<&'a str>,
        script: Operand<'a>,
        files: Vec<Operand<'a>>,
    },
}

/// Why words give no command.
#[derive(Debug, Drop, Error)]
pub enum WordsFault {
    #[error("the words mean no command")]
    Usage,
    #[error("out of memory")]
    Memory,
}

impl From<AllocError> for WordsFault {
    ghost use Rattle.jr_words.specs.declared.words.WordsFault.TheVariants.{Memory};

    ghost from_gives = { λ _ e. e ≡ Memory };

    fn from(_error: AllocError) -> WordsFault {
        WordsFault::Memory
    }
}

/// The command that the words mean.
///
/// `rename FILE AT NAME`: AT is one or more decimal digits with a value up to 4,294,967,295.
/// `run [--out DIR] SCRIPT FILE..`: the option stands at most once, anywhere behind `run`, and no
/// two FILEs are equal. No word is empty, and but for the option none begins with `-`.
///
/// `Usage` where they mean none. Memory is wanted only for a run whose words look so.
pub fn read_words(alloc: Global, words: &[String]) -> Result<Command<'_>, WordsFault>
    ensures ok { IfOk result (λ command. Mean (texts_of words.now) (command_of command)) }
    ensures fault { IfErr result (IsWordsFault (texts_of words.now)) }
{
    if !are_words(words) {
        return Err(WordsFault::Usage);
    }
    let Some(command) = words.first() else {
        return Err(WordsFault::Usage);
    };
    if command.as_str() == "run" {
        return read_run(alloc, words);
    }
    match read_rename(words) {
        Some(command) => Ok(command),
        None => Err(WordsFault::Usage),
    }
}

// Whether the words are such as each command line has.
fn are_words(words: &[String]) -> bool
    ensures { IsTrue result ↔ AreWords (texts_of words.now) }
{
    if words.len() > MAX_WORDS as usize {
        return false;
    }
    for word in words {
        if !is_word(word.as_str()) {
            return false;
        }
    }
    true
}

fn is_word(word: &str) -> bool
    ensures { IsTrue result ↔ (IsPlain word.now ⊎ (word.now ≡ out_word)) }
{
    is_plain(word) || word == OUT
}

// Whether the word is not empty and doesn't begin with `-`.
fn is_plain(word: &str) -> bool
    ensures { IsTrue result ↔ IsPlain word.now }
{
    let bytes = word.as_bytes();
    !bytes.is_empty() && bytes[0] != b'-'
}

// The command that words mean which don't begin with `run`.
fn read_rename(words: &[String]) -> Option<Command<'_>>
    requires { AreWords (texts_of words.now) }
    ensures { MatchOption result (IsNoRename (texts_of words.now))
        (λ command. Mean (texts_of words.now) (command_of command)) }
{
    let [command, file, at, name] = words else {
        return None;
    };
    read_parts(command.as_str(), file.as_str(), at.as_str(), name.as_str())
}

fn read_parts<'a>(command: &str, file: &'a str, at: &str, name: &'a str) -> Option<Command<'a>>
    ensures { let words = command.now ∷ file.now ∷ at.now ∷ name.now ∷ []
        in MatchOption result (IsNoRename words) (λ read. Mean words (command_of read)) }
{
    if command != "rename" || !is_plain(file) || !is_plain(name) {
        return None;
    }
    match read_place(at) {
        None => None,
        Some(at) => Some(Command::Rename { file, at, name }),
    }
}

// The value of decimal digits, if the word is such and a u32 holds it.
fn read_place(word: &str) -> Option<u32>
    ensures { MatchOption result ((at : ℕ) → IsPlace word.now at → ⊥) (IsPlace word.now) }
{
    if word.starts_with('+') {
        return None;
    }
    word.parse::<u32>().ok()
}
