ghost use Rattle.std.specs.Prelude.{◌≡◌, ℕ, List, IfErr, IfOk, OnOk, string_bytes};
ghost use Rattle.jr_files.specs.Fetching.{Served};
ghost use Rattle.jr_files.specs.Sources.{IsSource};
ghost use Rattle.jr_top.specs.Ends.{EndsUnwritten};
ghost use Rattle.jr_top.specs.Renames.{EndsAnswered, EndsPut};
ghost use Rattle.jr_top.specs.Runs.{Comes};
ghost use Rattle.jr_top.specs.Statuses.{OnNothingWritten};
ghost use Rattle.jr_words.specs.Words.{rename as pure_rename};

use crate::answers::{Answer, answer_of};
use crate::statuses::Status;
use jr_files::SourceFault;
use jr_shelf::{FetchFault, Shelf, Sink};
use jr_text::{Text, TextFault};
use std::alloc::Global;

// The number of the word FILE.
const FILE: u32 = 1;

/// Fetches the file, renames what the identifier at the byte `at` of its source declares or is
/// bound to, and gives the sink the new text, or the line of the refusal.
pub(crate) fn rename_file<S: Shelf, K: Sink>(
    alloc: Global,
    file: &str,
    at: u32,
    name: &str,
    shelf: &mut S,
    sink: &mut K,
) -> Status
    ensures comes { Comes (pure_rename file.now at name.now) result
        (S.holds shelf.old) (S.holds shelf.new) (S.missed shelf.old) (S.missed shelf.new)
        (S.faults shelf.old) (S.faults shelf.new) (S.served shelf.old) (S.served shelf.new)
        (K.taken sink.old) (K.taken sink.new) (K.faults sink.old) (K.faults sink.new) }
    ensures nothing_put { OnNothingWritten result (sink.new ≡ sink.old) }
{
    match fetch_source(alloc, file, shelf) {
        Err(status) => status,
        Ok(source) => rename_in_source(alloc, file, source, at, name, sink),
    }
}

// The source that the file holds, or how the run ends where there is none.
fn fetch_source<S: Shelf>(alloc: Global, file: &str, shelf: &mut S) -> Result<Text, Status>
    ensures ok { IfOk result (λ source. IsSource (S.holds shelf.old) file.now source) }
    ensures served { OnOk result (Served 1
        (S.holds shelf.old) (S.holds shelf.new) (S.missed shelf.old) (S.missed shelf.new)
        (S.faults shelf.old) (S.faults shelf.new) (S.served shelf.old) (S.served shelf.new)) }
    ensures err { IfErr result (λ status. (at : ℕ) (name : List ℕ) → EndsUnwritten
        (pure_rename file.now at name) status
        (S.holds shelf.old) (S.holds shelf.new) (S.missed shelf.old) (S.missed shelf.new)
        (S.faults shelf.old) (S.faults shelf.new) (S.served shelf.old) (S.served shelf.new)) }
{
    let bytes = match shelf.fetch(alloc, file) {
        Ok(bytes) => bytes,
        Err(FetchFault::Failed) => return Err(Status::ReadFault { word: FILE }),
        Err(FetchFault::TooLong) => return Err(bad_source(SourceFault::TooLong)),
        Err(FetchFault::Memory) => return Err(Status::NoMemory),
    };
    match Text::new(alloc, bytes.as_slice()) {
        Ok(source) => Ok(source),
        Err(TextFault::TooLong { .. }) => Err(bad_source(SourceFault::TooLong)),
        Err(TextFault::NotUtf8 { valid }) => Err(bad_source(SourceFault::NotUtf8 { valid })),
        Err(TextFault::Memory) => Err(Status::NoMemory),
    }
}

fn bad_source(fault: SourceFault) -> Status
    ensures { result ≡ Status.BadSource 1 fault }
{
    Status::BadSource { word: FILE, fault }
}

// Does the one step to the source, and gives the sink the new text, or the line of the refusal.
fn rename_in_source<K: Sink>(
    alloc: Global,
    file: &str,
    source: Text,
    at: u32,
    name: &str,
    sink: &mut K,
) -> Status
    ensures answered { EndsAnswered file.now source at name.now result
        (K.taken sink.old) (K.taken sink.new) (K.faults sink.old) (K.faults sink.new) }
    ensures nothing_put { OnNothingWritten result (sink.new ≡ sink.old) }
{
    match answer_of(alloc, file, source, at, name) {
        Err(_) => Status::NoMemory,
        Ok(answer) => put(sink, &answer),
    }
}

// Gives the sink the answer, and says how the run ends.
fn put<K: Sink>(sink: &mut K, answer: &Answer) -> Status
    ensures { EndsPut answer.now.refused (string_bytes answer.now.output) result
        (K.taken sink.old) (K.taken sink.new) (K.faults sink.old) (K.faults sink.new) }
{
    match sink.put(answer.output.as_bytes()) {
        Err(_) => Status::WriteFault { stored: 0 },
        Ok(()) => {
            if answer.refused {
                Status::Refused
            } else {
                Status::Done
            }
        }
    }
}
