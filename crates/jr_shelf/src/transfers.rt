// Loops over `read` and `write` to the end of the input and of the bytes. A count of faults rises
// where one comes, and nowhere else.
ghost use Rattle.std.specs.Prelude.{◌≡◌, ℕ, ◌<◌, ◌≤◌, ◌↔◌, ◌++◌, length, take, IfOk, IsTrue, OnOk};
ghost use Rattle.std.specs.Prelude.{OnErr, IfSome};
ghost use Rattle.std.specs.Io.KnownBytes.{Appends};
ghost use Rattle.std.specs.IoError.{error_kind};
ghost use Rattle.jr_shelf.specs.Counts.{faults_after_write, one_more};
ghost use Rattle.jr_shelf.specs.Fetch.{OnTooLong, faults_after};

use crate::{Failed, FetchFault, MAX_FILE};
use std::alloc::Global;
use std::io::{Error, ErrorKind, Read, Write};

/// Bytes that are read at once.
const PIECE: usize = 8192;

/// The bytes up to the end of the input: a read that gives nothing. Where they are more than
/// `MAX_FILE` it stops reading. A read that is interrupted is tried again.
pub fn read_whole<R: Read>(
    from: &mut R,
    alloc: Global,
    faults: &mut u64,
) -> Result<Vec<u8>, FetchFault>
    ensures within { IfOk result (λ bytes. length bytes.items ≤ MAX_FILE) }
    ensures whole { IfOk result (λ bytes.
        IfSome (R.remaining from.old) (λ left. left ≡ bytes.items)) }
    ensures too_long { OnTooLong result (IfSome (R.remaining from.old) (λ left.
        MAX_FILE < length left)) }
    ensures faults { faults.new ≡ faults_after result faults.old }
{
    let mut bytes = Vec::new(alloc);
    let mut piece = [0u8; PIECE];
    for _ in 0..u64::MAX {
        match from.read(&mut piece) {
            Ok(0) => return Ok(bytes),
            Ok(count) => append(&mut bytes, &piece[..count])?,
            Err(fault) if is_interrupted(&fault) => {}
            Err(fault) if is_out_of_memory(&fault) => return Err(FetchFault::Memory),
            Err(_) => break,
        }
    }
    raise(faults);
    Err(FetchFault::Failed)
}

/// One fault more.
pub fn raise(faults: &mut u64)
    ensures { faults.new ≡ one_more faults.old }
{
    *faults = faults.saturating_add(1);
}

fn append(bytes: &mut Vec<u8>, piece: &[u8]) -> Result<(), FetchFault>
    requires { length bytes.old.items ≤ MAX_FILE }
    ensures ok { OnOk result (bytes.new.items ≡ bytes.old.items ++ piece.now) }
    ensures within { OnOk result (length bytes.new.items ≤ MAX_FILE) }
    ensures too_long { OnTooLong result (MAX_FILE < length (bytes.old.items ++ piece.now)) }
    ensures no_fault { (count : ℕ) → faults_after result count ≡ count }
{
    if piece.len() > MAX_FILE as usize - bytes.len() {
        return Err(FetchFault::TooLong);
    }
    bytes.extend_from_slice(piece)?;
    Ok(())
}

fn is_interrupted(fault: &Error) -> bool
    ensures { IsTrue result ↔ (error_kind fault.now ≡ ErrorKind.Interrupted) }
{
    fault.kind() == ErrorKind::Interrupted
}

/// Whether the system had no memory.
pub fn is_out_of_memory(fault: &Error) -> bool
    ensures { IsTrue result ↔ (error_kind fault.now ≡ ErrorKind.OutOfMemory) }
{
    fault.kind() == ErrorKind::OutOfMemory
}

/// Writes all the bytes. A write that takes nothing of a piece that isn't empty is a fault, and one
/// that is interrupted is tried again.
pub fn write_whole<W: Write>(to: &mut W, bytes: &[u8], faults: &mut u64) -> Result<(), Failed>
    ensures ok { OnOk result (Appends (W.contents to.old) (W.contents to.new) bytes.now) }
    ensures in_part { OnErr result
        ((n : ℕ) × Appends (W.contents to.old) (W.contents to.new) (take n bytes.now)) }
    ensures faults { faults.new ≡ faults_after_write result faults.old }
{
    let mut rest = bytes;
    for _ in 0..u64::MAX {
        if rest.is_empty() {
            return Ok(());
        }
        match to.write(rest) {
            Ok(0) => break,
            Ok(count) => rest = &rest[count..],
            Err(fault) if is_interrupted(&fault) => {}
            Err(_) => break,
        }
    }
    raise(faults);
    Err(Failed)
}
