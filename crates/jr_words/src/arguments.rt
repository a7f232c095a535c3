//! The words of a run, read by `clap`.
ghost use Rattle.std.specs.Prelude.{IfOk, IfErr};
ghost use Rattle.clap.specs.Words.{found_of};
ghost use Rattle.jr_words.specs.Asked.{FindsArguments, IsArgumentsFault, IsRunCommand};
ghost use Rattle.jr_words.specs.Asked.{IsWordsFault, command_of};
ghost use Rattle.jr_words.specs.Words.{MayWantMemory, Mean, texts_of};

use crate::operands::{differ, option_place, with_numbers};
use crate::words::{Command, WordsFault};
use clap::error::ErrorKind;
use clap::{Arg, ArgAction, ArgMatches};
use std::alloc::{AllocError, Global};

/// The command that the words of a run mean.
pub(crate) fn read_run(alloc: Global, words: &[String]) -> Result<Command<'_>, WordsFault>
    requires { MayWantMemory (texts_of words.now) }
    ensures ok { IfOk result (λ command. Mean (texts_of words.now) (command_of command)) }
    ensures fault { IfErr result (IsWordsFault (texts_of words.now)) }
{
    let matches = matches_of(alloc, words)?;
    let Some(texts) = matches.get_strs("operands") else {
        return Err(WordsFault::Usage);
    };
    let mut operands = with_numbers(alloc, texts, option_place(words))?;
    if operands.is_empty() {
        return Err(WordsFault::Usage);
    }
    let script = operands.remove(0);
    if !differ(alloc, operands.as_slice())? {
        return Err(WordsFault::Usage);
    }
    Ok(Command::Run {
        out: matches.get_str("out"),
        script,
        files: operands,
    })
}

// What `clap` finds in the words: the option's folder and the operands.
fn matches_of(alloc: Global, words: &[String]) -> Result<ArgMatches<'_>, WordsFault>
    requires { MayWantMemory (texts_of words.now) }
    ensures ok { IfOk result (λ matches. FindsArguments (texts_of words.now) (found_of matches)) }
    ensures fault { IfErr result (IsArgumentsFault (texts_of words.now)) }
{
    match command(alloc)?.try_get_matches_from(words) {
        Ok(matches) => Ok(matches),
        Err(error) if error.kind() == ErrorKind::OutOfMemory => Err(WordsFault::Memory),
        Err(_) => Err(WordsFault::Usage),
    }
}

// The words that a run takes, as `clap` is told of them. The first is the command's own.
fn command<'a>(alloc: Global) -> Result<clap::Command<'a>, AllocError>
    ensures { IfOk result IsRunCommand }
{
    let out = Arg::new(alloc, "out").long("out");
    let operands = Arg::new(alloc, "operands")
        .action(ArgAction::Append)
        .required(true);
    clap::Command::new(alloc, "run")
        .disable_help_flag(true)
        .arg(out)?
        .arg(operands)
}
