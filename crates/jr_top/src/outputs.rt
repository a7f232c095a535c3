//! What a run writes: it is built first, and then written without memory.
ghost use Rattle.std.specs.Prelude.{◌≡◌, ◌<◌, ◌≤◌, ◌⊎◌, ◌^◌, ◌+◌, length, map, string_bytes};
ghost use Rattle.std.specs.Prelude.{IfOk, IfErr, OnOk, OnSome};
ghost use Rattle.jr_shelf.specs.Counts.{RoseBy};
ghost use Rattle.jr_shelf.specs.Sink.{with_bytes};
ghost use Rattle.jr_names.specs.ReplyView.{reply_of};
ghost use Rattle.jr_script.specs.Reports.{AreRepliesIn, report_text as text_of_report};
ghost use Rattle.jr_sources.specs.Sources.{names_of as names_in};
ghost use Rattle.jr_words.specs.Asked.{operand_of};
ghost use Rattle.jr_words.specs.Words.{Differ};
ghost use Rattle.jr_files.specs.Storing.{with_stores};
ghost use Rattle.jr_files.specs.Views.{store_of};
ghost use Rattle.jr_top.specs.Outputs.{FailedInReport, FailedInStores};
ghost use Rattle.jr_top.specs.OutputView.{IsChangedText, dir_of, text_of};
ghost use Rattle.jr_top.specs.OutputView.{output_of as pure_output};
ghost use Rattle.jr_top.specs.Scripts.{AreStores, sources_from, stored_name as pure_name};

use jr_ast::Name;
use jr_files::{Store, StoreFault, store_all};
use jr_names::Reply;
use jr_script::report_text;
use jr_session::Session;
use jr_shelf::{Shelf, Sink};
use jr_words::Operand;
use std::alloc::{AllocError, Global};

/// What a run writes: the files that changed, and then the report.
pub(crate) struct Output<'a> {
    pub stores: Vec<Store<'a>>,
    pub report: String,
}

// Written out: what is derived is proved in pieces in each function that lets an output go.
impl Drop for Output<'_> {
    fn drop(self) {
        let Output {
            stores: _,
            report: _,
        } = self;
    }
}

/// What a run writes whose files held the bytes `read`, and are those of the session now.
pub(crate) fn output_of<'a>(
    alloc: Global,
    out: Option<&str>,
    files: &[Operand],
    read: &[Vec<u8>],
    session: &'a Session,
    replies: &[Reply],
) -> Result<Output<'a>, AllocError>
    requires count { length read.now ≡ length files.now }
    requires differ { Differ (map operand_of files.now) }
    requires names { names_in session.now.files ≡ map text_of files.now }
    requires places { AreRepliesIn (map text_of files.now) (map reply_of replies.now) }
    ensures stores { IfOk result (λ output. AreStores (dir_of out.entry)
        (sources_from (map operand_of files.now) (map (λ b. b.items) read.now)) session.now.files
        (map store_of output.stores.items)) }
    ensures report { IfOk result (λ output. string_bytes output.report
        ≡ text_of_report (map text_of files.now) (map reply_of replies.now)) }
{
    let stores = changed_files(alloc, out, files, read, session)?;
    let names = names_of(alloc, files)?;
    let report = report_text(alloc, names.as_slice(), replies)?;
    Ok(Output { stores, report })
}

// The files whose text in the session isn't what was read.
fn changed_files<'a>(
    alloc: Global,
    out: Option<&str>,
    files: &[Operand],
    read: &[Vec<u8>],
    session: &'a Session,
) -> Result<Vec<Store<'a>>, AllocError>
    requires count { length read.now ≡ length files.now }
    requires differ { Differ (map operand_of files.now) }
    requires names { names_in session.now.files ≡ map text_of files.now }
    ensures { IfOk result (λ stores. AreStores (dir_of out.entry)
        (sources_from (map operand_of files.now) (map (λ b. b.items) read.now)) session.now.files
        (map store_of stores.items)) }
{
    let mut stores = Vec::new(alloc);
    for (number, file) in files.iter().enumerate() {
        if let Some(text) = changed_text(session, file.text, read[number].as_slice()) {
            let name = stored_name(alloc, out, file.text)?;
            stores.push(Store { name, text })?;
        }
    }
    Ok(stores)
}

// The text of the file in the session, where it isn't what was read.
fn changed_text<'a>(session: &'a Session, file: &str, read: &[u8]) -> Option<&'a str>
    ensures { IsChangedText session.now.files file.now read.now result }
{
    match session.text(file) {
        None => None,
        Some(text) => {
            if text.as_bytes() == read {
                None
            } else {
                Some(text)
            }
        }
    }
}

// The name under which the file is stored: its own, or that name in the folder.
fn stored_name(alloc: Global, out: Option<&str>, file: &str) -> Result<String, AllocError>
    ensures { IfOk result (λ name. string_bytes name
        ≡ pure_name (dir_of out.entry) file.now) }
{
    match out {
        None => String::from_str(alloc, file),
        Some(dir) => format!(in alloc; "{dir}/{file}"),
    }
}

fn names_of(alloc: Global, files: &[Operand]) -> Result<Vec<Name>, AllocError>
    ensures { IfOk result (λ names. names.items ≡ map text_of files.now) }
{
    let mut names = Vec::with_capacity(alloc, files.len())?;
    for file in files {
        let name = Name::new(alloc, file.text)?;
        names.push(name)?;
    }
    Ok(names)
}

/// Stores the files, and then gives the sink the report. It takes no memory.
pub(crate) fn write<S: Shelf, K: Sink>(
    output: &Output,
    shelf: &mut S,
    sink: &mut K,
) -> Result<(), StoreFault>
    requires { length output.now.stores.items < 2 ^ 32 }
    ensures stored { OnOk result
        (S.holds shelf.new ≡ with_stores (S.holds shelf.old) (pure_output output.now).stores) }
    ensures took { OnOk result
        (K.taken sink.new ≡ with_bytes (K.taken sink.old) (pure_output output.now).report) }
    ensures fault { IfErr result (λ fault.
        FailedInStores (pure_output output.now).stores fault.stored
        (S.holds shelf.old) (S.holds shelf.new) (S.faults shelf.old) (S.faults shelf.new)
        (K.taken sink.old) (K.taken sink.new) (K.faults sink.old) (K.faults sink.new)
        ⊎ FailedInReport (pure_output output.now) fault.stored
        (S.holds shelf.old) (S.holds shelf.new) (S.faults shelf.old) (S.faults shelf.new)
        (K.taken sink.old) (K.taken sink.new) (K.faults sink.old) (K.faults sink.new)) }
    ensures served_ok { OnOk result (RoseBy (length output.now.stores.items)
        (S.served shelf.old) (S.served shelf.new)) }
    ensures served_err { IfErr result (λ fault. RoseBy fault.stored
        (S.served shelf.old) (S.served shelf.new)) }
    ensures missed { OnSome (S.holds shelf.old) (S.missed shelf.new ≡ S.missed shelf.old) }
    ensures shelf_faults { S.faults shelf.old ≤ S.faults shelf.new }
    ensures shelf_faults_stay { OnOk result (S.faults shelf.new ≡ S.faults shelf.old) }
    ensures sink_faults { K.faults sink.old ≤ K.faults sink.new }
    ensures sink_faults_stay { OnOk result (K.faults sink.new ≡ K.faults sink.old) }
{
    store_all(output.stores.as_slice(), shelf)?;
    match sink.put(output.report.as_bytes()) {
        Ok(()) => Ok(()),
        Err(_) => Err(StoreFault {
            stored: output.stores.len() as u32,
        }),
    }
}
