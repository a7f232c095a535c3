ghost use Rattle.std.specs.Prelude.{◌≡◌, ℕ, ◌≤◌, OnSome, slice_get};
ghost use Rattle.jr_shelf.specs.Counts.{Rose, RoseBy};
ghost use Rattle.jr_words.specs.Words.{MeanNothing, texts_of};
ghost use Rattle.jr_top.specs.Ends.{HasBadScript, HasBadSource, ReadsUpTo};
ghost use Rattle.jr_top.specs.Outputs.{WroteAll, WroteInPart};
ghost use Rattle.jr_top.specs.Runs.{Answers, Ask, AskOfGoodInput, AskOfNoScript, AskOfNoSource};
ghost use Rattle.jr_top.specs.Runs.{FetchesAt, Grants, HadNoFault, IsMisuse, Ran, Refuses};
ghost use Rattle.jr_top.specs.Statuses.{IsAnswerOrMemory, IsBadScriptOrMemory};
ghost use Rattle.jr_top.specs.Statuses.{IsBadSourceOrMemory, OnAnswer, OnBadScript, OnBadSource};
ghost use Rattle.jr_top.specs.Statuses.{OnDone, OnNoFileFault, OnNoReadFault, OnNothingWritten};
ghost use Rattle.jr_top.specs.Statuses.{OnReadFault, OnRefused, OnWriteFault};

use crate::renames::rename_file;
use crate::scripts::run_script;
use crate::statuses::Status;
use jr_shelf::{Shelf, Sink};
use jr_words::{Command, WordsFault, read_words, words_mean_one_command};
use std::alloc::Global;

/// Does what the words ask for, with the files of the shelf, and gives the sink the output.
///
/// `rename FILE AT NAME` renames what the identifier at the byte AT of the file declares or is
/// bound to, in a session that has this file alone. The output is the new text, or the line
/// `refused NUMBER TEXT` of the refusal, and nothing is stored.
///
/// `run [--out DIR] SCRIPT FILE..` does the steps of the script to the files, a refused step
/// followed by the next. Each file whose text at the end isn't the text that was read is stored, in
/// the order of the words, under its word, or under DIR, `/` and its word. Then the sink takes the
/// report of all replies. The work is done in this order: the words, the script, the number of
/// files, each file's bytes, length, UTF-8 and the running total, the steps, all output, the
/// stores, the report. The first fault ends the run.
///
/// All output is built before any is written, and from then on no memory is taken.
pub fn run<S: Shelf, K: Sink>(
    alloc: Global,
    words: &[String],
    shelf: &mut S,
    sink: &mut K,
) -> Status
    // `Usage` exactly where the words mean nothing, but that there may be no memory to read those
    // of a run. Then nothing is fetched.
    ensures usage { result ≡ Status.Usage → MeanNothing (texts_of words.now) }
    ensures misuse { MeanNothing (texts_of words.now) → IsMisuse (texts_of words.now) result }
    ensures unread { MeanNothing (texts_of words.now) → shelf.new ≡ shelf.old }

    // `Done` and `Refused`: the output of what is asked for was written, all of it and nothing
    // else.
    ensures done { OnDone result
        (Ask (texts_of words.now) (λ command. WroteAll command (Grants (S.holds shelf.old) command)
        (S.holds shelf.old) (S.holds shelf.new) (S.served shelf.old) (S.served shelf.new)
        (K.taken sink.old) (K.taken sink.new))) }
    ensures refused { OnRefused result
        (Ask (texts_of words.now) (λ command. WroteAll command (Refuses (S.holds shelf.old) command)
        (S.holds shelf.old) (S.holds shelf.new) (S.served shelf.old) (S.served shelf.new)
        (K.taken sink.old) (K.taken sink.new))) }

    // `ReadFault`: only where the shelf failed in the fetch of that word's file, once all files
    // before it were fetched, and none of them has a fault.
    ensures read_fault { OnReadFault result (λ word.
        Rose (S.faults shelf.old) (S.faults shelf.new)) }
    ensures read_fault_missed { OnReadFault result (λ word.
        OnSome (S.holds shelf.old) (S.missed shelf.new ≡ slice_get (texts_of words.now) word)) }
    ensures read_fault_served { OnReadFault result (λ word.
        (number : ℕ) × FetchesAt (texts_of words.now) word number
        × RoseBy number (S.served shelf.old) (S.served shelf.new)) }
    ensures read_fault_in_order { OnReadFault result (λ word.
        Ask (texts_of words.now) (λ command. ReadsUpTo (S.holds shelf.old) command word)) }

    // `WriteFault`: only where the shelf failed in a store, or the sink in the put, and what came
    // before is whole.
    ensures write_fault { OnWriteFault result (λ stored.
        Ask (texts_of words.now) (λ command.
        WroteInPart command (Answers (S.holds shelf.old) command) stored
        (S.holds shelf.old) (S.holds shelf.new) (S.served shelf.old) (S.served shelf.new)
        (S.faults shelf.old) (S.faults shelf.new) (K.taken sink.old) (K.taken sink.new)
        (K.faults sink.old) (K.faults sink.new))) }

    // `BadScript`: only where the script's bytes have the fault, and wherever they are no script.
    ensures bad_script { OnBadScript result (λ fault.
        Ask (texts_of words.now) (λ command. HasBadScript (S.holds shelf.old) command fault)) }
    ensures no_script { AskOfNoScript (texts_of words.now) (S.holds shelf.old)
        → HadNoFault (S.faults shelf.old) (S.faults shelf.new)
        (K.faults sink.old) (K.faults sink.new)
        → IsBadScriptOrMemory result }

    // `BadSource`: only where the word's file is the first that has a fault, and wherever a file
    // has one.
    ensures bad_source { OnBadSource result (λ word fault.
        Ask (texts_of words.now) (λ command. HasBadSource (S.holds shelf.old) command word fault)) }
    ensures no_source { AskOfNoSource (texts_of words.now) (S.holds shelf.old)
        → HadNoFault (S.faults shelf.old) (S.faults shelf.new)
        (K.faults sink.old) (K.faults sink.new)
        → IsBadSourceOrMemory result }

    // Where all that is named is there and has no fault, and nothing fails, what is asked for is
    // done or refused.
    ensures complete { AskOfGoodInput (texts_of words.now) (S.holds shelf.old)
        → HadNoFault (S.faults shelf.old) (S.faults shelf.new)
        (K.faults sink.old) (K.faults sink.new)
        → IsAnswerOrMemory result }

    // What the run leaves. No count of faults rises at an answer that doesn't report a fault.
    ensures nothing_stored { OnNothingWritten result (S.holds shelf.new ≡ S.holds shelf.old) }
    ensures nothing_put { OnNothingWritten result (sink.new ≡ sink.old) }
    ensures missed { OnNoReadFault result
        (OnSome (S.holds shelf.old) (S.missed shelf.new ≡ S.missed shelf.old)) }
    ensures shelf_faults { S.faults shelf.old ≤ S.faults shelf.new }
    ensures shelf_faults_stay { OnNoFileFault result (S.faults shelf.new ≡ S.faults shelf.old) }
    ensures sink_faults { K.faults sink.old ≤ K.faults sink.new }
    ensures sink_faults_stay { OnAnswer result (K.faults sink.new ≡ K.faults sink.old) }
{
    words_mean_one_command();
    run_words(alloc, words, shelf, sink)
}

// The same, with all that is known of the run in one clause.
fn run_words<S: Shelf, K: Sink>(
    alloc: Global,
    words: &[String],
    shelf: &mut S,
    sink: &mut K,
) -> Status
    ensures ran { Ran (texts_of words.now) result
        (S.holds shelf.old) (S.holds shelf.new) (S.missed shelf.old) (S.missed shelf.new)
        (S.faults shelf.old) (S.faults shelf.new) (S.served shelf.old) (S.served shelf.new)
        (K.taken sink.old) (K.taken sink.new) (K.faults sink.old) (K.faults sink.new) }
    ensures unread { MeanNothing (texts_of words.now) → shelf.new ≡ shelf.old }
    ensures nothing_put { OnNothingWritten result (sink.new ≡ sink.old) }
{
    match read_words(alloc, words) {
        Err(WordsFault::Usage) => Status::Usage,
        Err(WordsFault::Memory) => Status::NoMemory,
        Ok(Command::Rename { file, at, name }) => {
            rename_file(alloc, file, at, name, shelf, sink)
        }
        Ok(Command::Run { out, script, files }) => {
            run_script(alloc, out, &script, files.as_slice(), shelf, sink)
        }
    }
}
