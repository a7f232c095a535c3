//! A session begins.
ghost use Rattle.std.specs.Prelude.{◌≡◌, ◌<◌, ◌≤◌, ◌^◌, IfOk, IfErr, OnOk, length};
ghost use Rattle.jr_session.specs.Beginning.{CanBegin, IsBeginFault};
ghost use Rattle.jr_sources.specs.SourceView.{sources_of};
ghost use Rattle.jr_sources.specs.KeptReadings.{AreReadings};
ghost use Rattle.jr_sources.specs.Sources.{texts_of, file_limit};

use jr_sources::{MAX_FILES, MAX_TOTAL_LEN, Readings, Sources, read};
use jr_text::Text;
use std::alloc::{AllocError, Global};
use thiserror::Error;

/// Why a session can't begin.
#[derive(Debug, Drop, Error)]
pub enum BeginFault {
    /// There are more than [`MAX_FILES`] files: `count` of them.
    #[error("{count} files are too many")]
    TooMany { count: u32 },
    /// The file `second` is the first that has the name of an earlier one, of `first`.
    #[error("the files {first} and {second} have one name")]
    SameName { first: u32, second: u32 },
    /// The files have more than [`MAX_TOTAL_LEN`] bytes together: `len`.
    #[error("{len} bytes are too many")]
    TotalTooLong { len: u64 },
    #[error("out of memory")]
    Memory,
}

impl From<AllocError> for BeginFault {
    ghost use Rattle.std.specs.Prelude.{◌≡◌};
    ghost use Rattle.jr_session.specs.declared.begins.BeginFault.TheVariants.{Memory};

    ghost from_gives = { λ _ e. e ≡ Memory };

    fn from(_error: AllocError) -> BeginFault {
        BeginFault::Memory
    }
}

/// The sources that files are, in their order.
pub(crate) fn sources_from(alloc: Global, files: Vec<(String, Text)>) -> Result<Sources, BeginFault>
    requires { length files.items < 2 ^ 32 }
    ensures ok { IfOk result (λ sources. sources ≡ sources_of files.items) }
    ensures valid { OnOk result (CanBegin (sources_of files.items)) }
    ensures fault { IfErr result (IsBeginFault (sources_of files.items)) }
{
    if files.len() > MAX_FILES as usize {
        return Err(BeginFault::TooMany {
            count: files.len() as u32,
        });
    }
    let sources = gather(alloc, files)?;
    let len = sources.total();
    if len > MAX_TOTAL_LEN {
        return Err(BeginFault::TotalTooLong { len });
    }
    Ok(sources)
}

// The files, each under its own name.
fn gather(alloc: Global, files: Vec<(String, Text)>) -> Result<Sources, BeginFault>
    requires { length files.items ≤ file_limit }
    ensures ok { IfOk result (λ sources. sources ≡ sources_of files.items) }
    ensures fault { IfErr result (IsBeginFault (sources_of files.items)) }
{
    let mut sources = Sources::new(alloc);
    for (name, text) in files {
        let second = sources.count();
        if let Some(first) = sources.add(name, text)? {
            return Err(BeginFault::SameName { first, second });
        }
    }
    Ok(sources)
}

/// All files are read.
pub(crate) fn readings_of(alloc: Global, sources: &Sources) -> Result<Readings, AllocError>
    ensures { IfOk result (AreReadings (texts_of sources.now)) }
{
    let count = sources.count();
    let mut readings = Readings::with_capacity(alloc, count as usize)?;
    for number in 0..count {
        readings.push(read(alloc, sources.text(number))?)?;
    }
    Ok(readings)
}
