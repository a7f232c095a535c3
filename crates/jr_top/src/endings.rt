//! From words to the end of the process.
ghost use Rattle.std.specs.Prelude.{◌≡◌, ◌≢◌, ℕ, ◌≤◌, OnSome, slice_get};
ghost use Rattle.std.specs.IoError.{error_kind};
ghost use Rattle.std.specs.Process.{exit_status};
ghost use Rattle.jr_shelf.specs.Counts.{Rose, RoseBy};
ghost use Rattle.jr_words.specs.Words.{MeanNothing, texts_of};
ghost use Rattle.jr_top.specs.Ends.{HasBadScript, HasBadSource, ReadsUpTo};
ghost use Rattle.jr_top.specs.Messages.{IsReported, status_text};
ghost use Rattle.jr_top.specs.Outputs.{WroteAll, WroteInPart};
ghost use Rattle.jr_top.specs.Runs.{Answers, Ask, AskOfGoodInput, AskOfNoScript, AskOfNoSource};
ghost use Rattle.jr_top.specs.Runs.{FetchesAt, Grants, HadNoFault, IsMisuse, Refuses};
ghost use Rattle.jr_top.specs.Statuses.{IsAnswerOrMemory, IsBadScriptOrMemory};
ghost use Rattle.jr_top.specs.Statuses.{IsBadSourceOrMemory, OnAnswer, OnBadScript, OnBadSource};
ghost use Rattle.jr_top.specs.Statuses.{OnDone, OnNoFileFault, OnNoReadFault, OnNothingWritten};
ghost use Rattle.jr_top.specs.Statuses.{OnReadFault, OnRefused, OnWriteFault, number_of};

use crate::messages::Message;
use crate::runs::run;
use crate::statuses::Status;
use jr_shelf::{Shelf, Sink};
use std::alloc::Global;
use std::io::{Error, ErrorKind};
use std::process::ExitCode;

/// How a run ended, and what the process ends with.
#[derive(Drop)]
pub struct Ending {
    pub status: Status,
    pub code: ExitCode,
}

/// Does what the words ask for, with the files of the shelf, gives the sink the output, and reports
/// the status to where standard error goes.
pub fn serve<S: Shelf, K: Sink, E: Sink>(
    alloc: Global,
    words: &[String],
    shelf: &mut S,
    sink: &mut K,
    errors: &mut E,
) -> Ending
    // The process ends with the number of the status, and standard error got its message.
    ensures number { exit_status result.code ≡ number_of result.status }
    ensures reported { IsReported (status_text (texts_of words.now) result.status)
        (E.taken errors.old) (E.taken errors.new) (E.faults errors.old) (E.faults errors.new) }

    // The status is that of a run: all that `run` promises of its answer holds of it.
    ensures usage { result.status ≡ Status.Usage → MeanNothing (texts_of words.now) }
    ensures misuse { MeanNothing (texts_of words.now)
        → IsMisuse (texts_of words.now) result.status }
    ensures unread { MeanNothing (texts_of words.now) → shelf.new ≡ shelf.old }
    ensures done { OnDone result.status
        (Ask (texts_of words.now) (λ command. WroteAll command (Grants (S.holds shelf.old) command)
        (S.holds shelf.old) (S.holds shelf.new) (S.served shelf.old) (S.served shelf.new)
        (K.taken sink.old) (K.taken sink.new))) }
    ensures refused { OnRefused result.status
        (Ask (texts_of words.now) (λ command. WroteAll command (Refuses (S.holds shelf.old) command)
        (S.holds shelf.old) (S.holds shelf.new) (S.served shelf.old) (S.served shelf.new)
        (K.taken sink.old) (K.taken sink.new))) }
    ensures read_fault { OnReadFault result.status (λ word.
        Rose (S.faults shelf.old) (S.faults shelf.new)) }
    ensures read_fault_missed { OnReadFault result.status (λ word.
        OnSome (S.holds shelf.old) (S.missed shelf.new ≡ slice_get (texts_of words.now) word)) }
    ensures read_fault_served { OnReadFault result.status (λ word.
        (number : ℕ) × FetchesAt (texts_of words.now) word number
        × RoseBy number (S.served shelf.old) (S.served shelf.new)) }
    ensures read_fault_in_order { OnReadFault result.status (λ word.
        Ask (texts_of words.now) (λ command. ReadsUpTo (S.holds shelf.old) command word)) }
    ensures write_fault { OnWriteFault result.status (λ stored.
        Ask (texts_of words.now) (λ command.
        WroteInPart command (Answers (S.holds shelf.old) command) stored
        (S.holds shelf.old) (S.holds shelf.new) (S.served shelf.old) (S.served shelf.new)
        (S.faults shelf.old) (S.faults shelf.new) (K.taken sink.old) (K.taken sink.new)
        (K.faults sink.old) (K.faults sink.new))) }
    ensures bad_script { OnBadScript result.status (λ fault.
        Ask (texts_of words.now) (λ command. HasBadScript (S.holds shelf.old) command fault)) }
    ensures no_script { AskOfNoScript (texts_of words.now) (S.holds shelf.old)
        → HadNoFault (S.faults shelf.old) (S.faults shelf.new)
        (K.faults sink.old) (K.faults sink.new)
        → IsBadScriptOrMemory result.status }
    ensures bad_source { OnBadSource result.status (λ word fault.
        Ask (texts_of words.now) (λ command. HasBadSource (S.holds shelf.old) command word fault)) }
    ensures no_source { AskOfNoSource (texts_of words.now) (S.holds shelf.old)
        → HadNoFault (S.faults shelf.old) (S.faults shelf.new)
        (K.faults sink.old) (K.faults sink.new)
        → IsBadSourceOrMemory result.status }
    ensures complete { AskOfGoodInput (texts_of words.now) (S.holds shelf.old)
        → HadNoFault (S.faults shelf.old) (S.faults shelf.new)
        (K.faults sink.old) (K.faults sink.new)
        → IsAnswerOrMemory result.status }
    ensures nothing_stored { OnNothingWritten result.status
        (S.holds shelf.new ≡ S.holds shelf.old) }
    ensures nothing_put { OnNothingWritten result.status (sink.new ≡ sink.old) }
    ensures missed { OnNoReadFault result.status
        (OnSome (S.holds shelf.old) (S.missed shelf.new ≡ S.missed shelf.old)) }
    ensures shelf_faults { S.faults shelf.old ≤ S.faults shelf.new }
    ensures shelf_faults_stay { OnNoFileFault result.status
        (S.faults shelf.new ≡ S.faults shelf.old) }
    ensures sink_faults { K.faults sink.old ≤ K.faults sink.new }
    ensures sink_faults_stay { OnAnswer result.status (K.faults sink.new ≡ K.faults sink.old) }
{
    let status = run(alloc, words, shelf, sink);
    let code = end(&status, words, errors);
    Ending { status, code }
}

/// How the program ends where it has no words: there was no memory for them, or one isn't UTF-8.
pub fn status_of(error: &Error) -> Status
    ensures memory { error_kind error.now ≡ ErrorKind.OutOfMemory → result ≡ Status.NoMemory }
    ensures otherwise { error_kind error.now ≢ ErrorKind.OutOfMemory → result ≡ Status.Usage }
{
    if error.kind() == ErrorKind::OutOfMemory {
        Status::NoMemory
    } else {
        Status::Usage
    }
}

/// Reports the status of a run with these words, and gives its number. A fault of standard error
/// changes nothing of it.
pub fn end<E: Sink>(status: &Status, words: &[String], errors: &mut E) -> ExitCode
    ensures number { exit_status result ≡ number_of status.now }
    ensures reported { IsReported (status_text (texts_of words.now) status.now)
        (E.taken errors.old) (E.taken errors.new) (E.faults errors.old) (E.faults errors.new) }
{
    if let Some(message) = Message::of(status, words) {
        let _ = message.put(errors);
    }
    ExitCode::from(status.number())
}
