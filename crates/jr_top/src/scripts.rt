//! A script is run over files.
ghost use Rattle.std.specs.Prelude.{◌≡◌, ◌+◌, ◌<◌, ◌≤◌, ◌^◌, ℕ, List, Option, length, map};
ghost use Rattle.std.specs.Prelude.{IfOk, IfErr, OnOk, OnSome};
ghost use Rattle.jr_session.specs.Serving.{IsServed};
ghost use Rattle.jr_words.specs.Asked.{operand_of};
ghost use Rattle.jr_words.specs.Words.{Differ, Operand as NamedWord, run as pure_run};
ghost use Rattle.jr_files.specs.Fetching.{Served};
ghost use Rattle.jr_top.specs.Ends.{EndsUnwritten, IsBegun, fault_status};
ghost use Rattle.jr_top.specs.OutputView.{dir_of};
ghost use Rattle.jr_top.specs.Outputs.{WroteAll, WroteInPart};
ghost use Rattle.jr_top.specs.Runs.{Answers, Comes, Grants, Refuses};
ghost use Rattle.jr_top.specs.Scripts.{HoldsScript};
ghost use Rattle.jr_top.specs.Statuses.{IsOfRun, OnAnswer, OnDone, OnNoFileFault, OnNoReadFault};
ghost use Rattle.jr_top.specs.Statuses.{OnNothingWritten, OnRefused, OnWriteFault};

use crate::outputs::{output_of, write};
use crate::replies::{status_of, take_steps};
use crate::statuses::Status;
use jr_files::{Fetched, FilesFault, fetch_sources};
use jr_names::Step;
use jr_script::{ScriptFault, read_script, script_has_one_answer};
use jr_session::Session;
use jr_shelf::{FetchFault, Shelf, Sink};
use jr_words::Operand;
use std::alloc::Global;

// What a run begins with: the steps of the script, a session with the files, and the bytes that
// each file held.
struct Begun {
    steps: Vec<Step>,
    session: Session,
    read: Vec<Vec<u8>>,
}

// Written out: what is derived is proved in pieces in each function that lets it go.
impl Drop for Begun {
    fn drop(self) {
        let Begun {
            steps: _,
            session: _,
            read: _,
        } = self;
    }
}

/// Fetches the script and the files, does the steps, stores the files that changed, in the folder
/// `out` where there is one, and gives the sink the report.
pub(crate) fn run_script<S: Shelf, K: Sink>(
    alloc: Global,
    out: Option<&str>,
    script: &Operand,
    files: &[Operand],
    shelf: &mut S,
    sink: &mut K,
) -> Status
    requires count { length files.now < 2 ^ 32 }
    requires differ { Differ (map operand_of files.now) }
    ensures comes { Comes
        (pure_run (dir_of out.entry) (operand_of script.now) (map operand_of files.now)) result
        (S.holds shelf.old) (S.holds shelf.new) (S.missed shelf.old) (S.missed shelf.new)
        (S.faults shelf.old) (S.faults shelf.new) (S.served shelf.old) (S.served shelf.new)
        (K.taken sink.old) (K.taken sink.new) (K.faults sink.old) (K.faults sink.new) }
    ensures nothing_put { OnNothingWritten result (sink.new ≡ sink.old) }
{
    script_has_one_answer();
    do_script(alloc, out, script, files, shelf, sink)
}

// The same, but for what the run comes to where the files that are held are known.
fn do_script<S: Shelf, K: Sink>(
    alloc: Global,
    out: Option<&str>,
    script: &Operand,
    files: &[Operand],
    shelf: &mut S,
    sink: &mut K,
) -> Status
    requires count { length files.now < 2 ^ 32 }
    requires differ { Differ (map operand_of files.now) }
    ensures ends { IsOfRun result }
    ensures unwritten { let command =
        pure_run (dir_of out.entry) (operand_of script.now) (map operand_of files.now)
        in OnNothingWritten result (EndsUnwritten command result
        (S.holds shelf.old) (S.holds shelf.new) (S.missed shelf.old) (S.missed shelf.new)
        (S.faults shelf.old) (S.faults shelf.new) (S.served shelf.old) (S.served shelf.new)) }
    ensures done { let command =
        pure_run (dir_of out.entry) (operand_of script.now) (map operand_of files.now)
        in OnDone result (WroteAll command (Grants (S.holds shelf.old) command)
        (S.holds shelf.old) (S.holds shelf.new) (S.served shelf.old) (S.served shelf.new)
        (K.taken sink.old) (K.taken sink.new)) }
    ensures refused { let command =
        pure_run (dir_of out.entry) (operand_of script.now) (map operand_of files.now)
        in OnRefused result (WroteAll command (Refuses (S.holds shelf.old) command)
        (S.holds shelf.old) (S.holds shelf.new) (S.served shelf.old) (S.served shelf.new)
        (K.taken sink.old) (K.taken sink.new)) }
    ensures write_fault { let command =
        pure_run (dir_of out.entry) (operand_of script.now) (map operand_of files.now)
        in OnWriteFault result (λ stored. WroteInPart command
        (Answers (S.holds shelf.old) command) stored (S.holds shelf.old) (S.holds shelf.new)
        (S.served shelf.old) (S.served shelf.new) (S.faults shelf.old) (S.faults shelf.new)
        (K.taken sink.old) (K.taken sink.new) (K.faults sink.old) (K.faults sink.new)) }
    ensures nothing_put { OnNothingWritten result (sink.new ≡ sink.old) }
    ensures missed { OnNoReadFault result
        (OnSome (S.holds shelf.old) (S.missed shelf.new ≡ S.missed shelf.old)) }
    ensures shelf_faults { S.faults shelf.old ≤ S.faults shelf.new }
    ensures shelf_faults_stay { OnNoFileFault result (S.faults shelf.new ≡ S.faults shelf.old) }
    ensures sink_faults { K.faults sink.old ≤ K.faults sink.new }
    ensures sink_faults_stay { OnAnswer result (K.faults sink.new ≡ K.faults sink.old) }
{
    let mut begun = match begin(alloc, script, files, shelf) {
        Ok(begun) => begun,
        Err(status) => return status,
    };
    let Ok(replies) = take_steps(alloc, &mut begun.session, begun.steps.as_slice()) else {
        return Status::NoMemory;
    };
    let replies = replies.as_slice();
    let read = begun.read.as_slice();
    let Ok(output) = output_of(alloc, out, files, read, &begun.session, replies) else {
        return Status::NoMemory;
    };
    match write(&output, shelf, sink) {
        Ok(()) => status_of(replies),
        Err(fault) => Status::WriteFault {
            stored: fault.stored,
        },
    }
}

// The steps of the script, a session with the files, and the bytes that each file held; or how the
// run ends where there is none.
fn begin<S: Shelf>(
    alloc: Global,
    script: &Operand,
    files: &[Operand],
    shelf: &mut S,
) -> Result<Begun, Status>
    requires count { length files.now < 2 ^ 32 }
    requires differ { Differ (map operand_of files.now) }
    ensures ok { IfOk result (λ b. IsBegun (S.holds shelf.old) (operand_of script.now)
        (map operand_of files.now) b.steps.items b.session
        (map (λ bytes. bytes.items) b.read.items)) }
    ensures served { OnOk result (Served (1 + length files.now)
        (S.holds shelf.old) (S.holds shelf.new) (S.missed shelf.old) (S.missed shelf.new)
        (S.faults shelf.old) (S.faults shelf.new) (S.served shelf.old) (S.served shelf.new)) }
    ensures err { IfErr result (λ status. (out : Option (List ℕ)) → EndsUnwritten
        (pure_run out (operand_of script.now) (map operand_of files.now)) status
        (S.holds shelf.old) (S.holds shelf.new) (S.missed shelf.old) (S.missed shelf.new)
        (S.faults shelf.old) (S.faults shelf.new) (S.served shelf.old) (S.served shelf.new)) }
{
    let steps = read_steps(alloc, script, shelf)?;
    match fetch_sources(alloc, files, shelf) {
        Err(fault) => Err(status_of_fault(fault)),
        Ok(fetched) => {
            let Fetched { sources, bytes } = fetched;
            match Session::begin(alloc, sources) {
                Ok(session) => {
                    let begun = Begun {
                        steps,
                        session,
                        read: bytes,
                    };
                    Ok(begun)
                }
                // The number, the names and the lengths of the files were looked at: what is left
                // is want of memory.
                Err(fault) => {
                    drop(fault);
                    Err(Status::NoMemory)
                }
            }
        }
    }
}

fn status_of_fault(fault: FilesFault) -> Status
    ensures { result ≡ fault_status fault }
{
    match fault {
        FilesFault::Unread { word } => Status::ReadFault { word },
        FilesFault::BadSource { word, fault } => Status::BadSource { word, fault },
        FilesFault::Memory => Status::NoMemory,
    }
}

// The steps of the script that the file holds, or how the run ends where it holds none.
fn read_steps<S: Shelf>(alloc: Global, script: &Operand, shelf: &mut S) -> Result<Vec<Step>, Status>
    ensures ok { IfOk result (λ steps.
        HoldsScript (S.holds shelf.old) script.now.text.now steps.items) }
    ensures served { OnOk result (Served 1
        (S.holds shelf.old) (S.holds shelf.new) (S.missed shelf.old) (S.missed shelf.new)
        (S.faults shelf.old) (S.faults shelf.new) (S.served shelf.old) (S.served shelf.new)) }
    ensures err { IfErr result (λ status. (out : Option (List ℕ)) (files : List NamedWord)
        → EndsUnwritten (pure_run out (operand_of script.now) files) status
        (S.holds shelf.old) (S.holds shelf.new) (S.missed shelf.old) (S.missed shelf.new)
        (S.faults shelf.old) (S.faults shelf.new) (S.served shelf.old) (S.served shelf.new)) }
{
    let bytes = match shelf.fetch(alloc, script.text) {
        Ok(bytes) => bytes,
        Err(FetchFault::Failed) => return Err(Status::ReadFault { word: script.word }),
        Err(FetchFault::TooLong) => return Err(Status::BadScript(ScriptFault::TooLong)),
        Err(FetchFault::Memory) => return Err(Status::NoMemory),
    };
    match read_script(alloc, bytes.as_slice()) {
        Ok(steps) => Ok(steps),
        Err(ScriptFault::Memory) => Err(Status::NoMemory),
        Err(fault) => Err(Status::BadScript(fault)),
    }
}
