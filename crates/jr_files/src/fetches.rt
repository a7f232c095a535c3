//! Sources are fetched.
ghost use Rattle.std.specs.Prelude.{◌≡◌, ◌<◌, ◌≤◌, ◌^◌, map, length, IfOk, IfErr, OnOk, OnSome};
ghost use Rattle.std.specs.Prelude.{Some};
ghost use Rattle.jr_shelf.specs.Counts.{Rose};
ghost use Rattle.jr_words.specs.Asked.{operand_of};
ghost use Rattle.jr_files.specs.Fetching.{IsFilesFault, IsInOrder, IsOneFault, IsUnread};
ghost use Rattle.jr_files.specs.Fetching.{OnUnread, Served, UnlessUnread};
ghost use Rattle.jr_files.specs.Sources.{AreFetched, IsSource};
ghost use Rattle.jr_files.specs.Views.{AreOf, texts_of};

use crate::faults::{FilesFault, SourceFault};
use jr_shelf::{FetchFault, Shelf};
use jr_text::{Text, TextFault};
use jr_words::Operand;
use std::alloc::Global;

/// How many files a run has at most.
pub const MAX_FILES: u32 = 256;

/// How many bytes the files of a run have at most, together.
pub const MAX_TOTAL_LEN: u64 = 8_388_608;

/// Files that were fetched.
#[derive(Drop)]
pub struct Fetched {
    /// Each with its name, in order.
    pub sources: Vec<(String, Text)>,
    /// The bytes of each.
    pub bytes: Vec<Vec<u8>>,
}

/// The sources that the files hold, fetched in order.
///
/// The number of files is looked at first. Then each file's bytes are fetched and counted, have to
/// be UTF-8, and are added to those before; the first fault is told.
pub fn fetch_sources<S: Shelf>(
    alloc: Global,
    files: &[Operand],
    shelf: &mut S,
) -> Result<Fetched, FilesFault>
    requires { length files.now < 2 ^ 32 }
    ensures ok { IfOk result (λ fetched.
        AreFetched (S.holds shelf.old) (map operand_of files.now) (texts_of fetched)) }
    ensures named { IfOk result (AreOf (map operand_of files.now)) }
    // Each file that is told as no source is the first such.
    ensures fault { IfErr result (IsFilesFault (S.holds shelf.old) (map operand_of files.now)) }
    ensures unread { IfErr result (λ fault. OnUnread fault (λ word.
        IsUnread (S.holds shelf.old) (map operand_of files.now) word (S.missed shelf.new)
        (S.faults shelf.old) (S.faults shelf.new) (S.served shelf.old) (S.served shelf.new))) }
    ensures in_order { IfErr result (λ fault. OnUnread fault
        (IsInOrder (S.holds shelf.old) (map operand_of files.now))) }

    // What the shelf is behind it.
    ensures served { OnOk result (Served (length files.now)
        (S.holds shelf.old) (S.holds shelf.new) (S.missed shelf.old) (S.missed shelf.new)
        (S.faults shelf.old) (S.faults shelf.new) (S.served shelf.old) (S.served shelf.new)) }
    ensures keeps { S.holds shelf.new ≡ S.holds shelf.old }
    ensures missed { IfErr result (λ fault. UnlessUnread fault
        (OnSome (S.holds shelf.old) (S.missed shelf.new ≡ S.missed shelf.old))) }
    ensures faults_stay { IfErr result (λ fault. UnlessUnread fault
        (S.faults shelf.new ≡ S.faults shelf.old)) }
    ensures faults { S.faults shelf.old ≤ S.faults shelf.new }
{
    if let Some(surplus) = files.get(MAX_FILES as usize) {
        let count = files.len() as u32;
        return Err(bad_source(surplus, SourceFault::TooMany { count }));
    }
    let mut sources = Vec::with_capacity(alloc, files.len())?;
    let mut all_bytes = Vec::with_capacity(alloc, files.len())?;
    let mut total = 0;
    for file in files {
        let (bytes, text) = fetch_source(alloc, file, shelf)?;
        total += u64::from(text.len());
        if total > MAX_TOTAL_LEN {
            let fault = SourceFault::TotalTooLong { len: total };
            return Err(bad_source(file, fault));
        }
        sources.push((String::from_str(alloc, file.text)?, text))?;
        all_bytes.push(bytes)?;
    }
    Ok(Fetched {
        sources,
        bytes: all_bytes,
    })
}

fn bad_source(file: &Operand, fault: SourceFault) -> FilesFault
    ensures { result ≡ FilesFault.BadSource file.now.word fault }
{
    FilesFault::BadSource {
        word: file.word,
        fault,
    }
}

// The bytes that the file holds, and the source that they are.
fn fetch_source<S: Shelf>(
    alloc: Global,
    file: &Operand,
    shelf: &mut S,
) -> Result<(Vec<u8>, Text), FilesFault>
    ensures ok { IfOk result (λ r. IsSource (S.holds shelf.old) file.now.text.now r.1) }
    ensures bytes { IfOk result (λ r. r.0.items ≡ r.1) }
    ensures fault { IfErr result (λ fault. IsOneFault fault
        (S.holds shelf.old) (operand_of file.now)) }
    ensures unread { IfErr result (λ fault. OnUnread fault (λ word. (word ≡ file.now.word)
        × Rose (S.faults shelf.old) (S.faults shelf.new)
        × OnSome (S.holds shelf.old) (S.missed shelf.new ≡ Some file.now.text.now)
        × (S.served shelf.new ≡ S.served shelf.old))) }
    ensures served { OnOk result (Served 1
        (S.holds shelf.old) (S.holds shelf.new) (S.missed shelf.old) (S.missed shelf.new)
        (S.faults shelf.old) (S.faults shelf.new) (S.served shelf.old) (S.served shelf.new)) }
    ensures keeps { S.holds shelf.new ≡ S.holds shelf.old }
    ensures missed { IfErr result (λ fault. UnlessUnread fault
        (OnSome (S.holds shelf.old) (S.missed shelf.new ≡ S.missed shelf.old))) }
    ensures faults_stay { IfErr result (λ fault. UnlessUnread fault
        (S.faults shelf.new ≡ S.faults shelf.old)) }
    ensures faults { S.faults shelf.old ≤ S.faults shelf.new }
{
    let bytes = match shelf.fetch(alloc, file.text) {
        Ok(bytes) => bytes,
        Err(FetchFault::Failed) => return Err(FilesFault::Unread { word: file.word }),
        Err(FetchFault::TooLong) => return Err(bad_source(file, SourceFault::TooLong)),
        Err(FetchFault::Memory) => return Err(FilesFault::Memory),
    };
    match Text::new(alloc, bytes.as_slice()) {
        Ok(text) => Ok((bytes, text)),
        Err(TextFault::TooLong { .. }) => Err(bad_source(file, SourceFault::TooLong)),
        Err(TextFault::NotUtf8 { valid }) => Err(bad_source(file, SourceFault::NotUtf8 { valid })),
        Err(TextFault::Memory) => Err(FilesFault::Memory),
    }
}
