ghost use Rattle.std.specs.Prelude.{◌≡◌, ℕ, ◌^◌, ◌<◌, ◌≤◌, List, Option, None, length, IfOk};
ghost use Rattle.std.specs.Prelude.{IfSome};
ghost use Rattle.jr_shelf.specs.Counts.{faults_after_write};
ghost use Rattle.jr_shelf.specs.Fetch.{OnTooLong, faults_after};
ghost use Rattle.jr_shelf.specs.Limits.{file_limit};
ghost use Rattle.jr_shelf.specs.Shelf.{Files as HeldFiles};

use crate::transfers::{is_out_of_memory, raise, read_whole, write_whole};
use crate::{Failed, FetchFault, Shelf};
use std::alloc::Global;
use std::fs;
use std::rt::Files;

/// Real files, each under its path.
///
/// Contracts don't know what it holds. A refusal of memory by the system is want of memory in a
/// fetch, and a fault in a store.
#[derive(Drop)]
pub struct DirShelf<R: Files + Drop> {
    rt: R,
    fault_count: u64,
    served_count: u64,
    ghost fault_count_fits: { fault_count < 2 ^ 64 },
    ghost served_count_fits: { served_count < 2 ^ 64 },
}

impl<R: Files + Drop> DirShelf<R> {
    /// A shelf over the files that this runtime reaches, with both counts 0.
    pub fn new(rt: R) -> Self
        ensures faults { ⟦<DirShelf<R> as Shelf>⟧.faults result ≡ 0 }
        ensures served { ⟦<DirShelf<R> as Shelf>⟧.served result ≡ 0 }
    {
        DirShelf {
            rt,
            fault_count: 0,
            served_count: 0,
        }
    }
}

impl<R: Files + Drop> Shelf for DirShelf<R> {
    ghost use Rattle.jr_shelf.specs.Counts.{faults_after_write, served_after};
    ghost use Rattle.jr_shelf.specs.Fetch.{OnMemory, OnTooLong, faults_after};

    ghost holds = { λ _. None };

    ghost missed = { λ _. None };

    ghost faults = { λ shelf. shelf.fault_count };

    ghost served = { λ shelf. shelf.served_count };

    fn fetch(&mut self, alloc: Global, name: &str) -> Result<Vec<u8>, FetchFault>
        ensures within { IfOk result (λ bytes. length bytes.items ≤ file_limit) }
        ensures memory { OnMemory result (self.new ≡ self.old) }
        // Of a file that was opened, whose bytes are too many where it tells them.
        ensures too_long { OnTooLong result ((file : R.File)
            × IfSome (R.File.remaining file) (λ left. file_limit < length left)) }

        // Each count rises by one, and only at its answer.
        ensures faults { self.new.fault_count ≡ faults_after result self.old.fault_count }
        ensures served { self.new.served_count ≡ served_after result self.old.served_count }
    {
        let mut faults = self.fault_count;
        match read_file(&self.rt, alloc, name, &mut faults) {
            Ok(bytes) => {
                self.served_count = self.served_count.saturating_add(1);
                Ok(bytes)
            }
            Err(FetchFault::Failed) => {
                self.fault_count = faults;
                Err(FetchFault::Failed)
            }
            Err(FetchFault::TooLong) => Err(FetchFault::TooLong),
            Err(FetchFault::Memory) => Err(FetchFault::Memory),
        }
    }

    fn store(&mut self, name: &str, bytes: &[u8]) -> Result<(), Failed>
        // Each count rises by one, and only at its answer.
        ensures faults { self.new.fault_count ≡ faults_after_write result self.old.fault_count }
        ensures served { self.new.served_count ≡ served_after result self.old.served_count }
    {
        let mut faults = self.fault_count;
        let answer = write_file(&self.rt, name, bytes, &mut faults);
        self.fault_count = faults;
        if answer.is_ok() {
            self.served_count = self.served_count.saturating_add(1);
        }
        answer
    }

    ghost faults_fit = { λ shelf. shelf.fault_count_fits };

    ghost served_fit = { λ shelf. shelf.served_count_fits };
}

fn read_file<R: Files>(
    rt: &R,
    alloc: Global,
    name: &str,
    faults: &mut u64,
) -> Result<Vec<u8>, FetchFault>
    ensures within { IfOk result (λ bytes. length bytes.items ≤ file_limit) }
    // Of a file that was opened, whose bytes are too many where it tells them.
    ensures too_long { OnTooLong result ((file : R.File)
        × IfSome (R.File.remaining file) (λ left. file_limit < length left)) }
    ensures faults { faults.new ≡ faults_after result faults.old }
{
    match fs::open(rt, name) {
        Ok(mut file) => read_whole(&mut file, alloc, faults),
        Err(fault) if is_out_of_memory(&fault) => Err(FetchFault::Memory),
        Err(_) => {
            raise(faults);
            Err(FetchFault::Failed)
        }
    }
}

fn write_file<R: Files>(rt: &R, name: &str, bytes: &[u8], faults: &mut u64) -> Result<(), Failed>
    ensures { faults.new ≡ faults_after_write result faults.old }
{
    match fs::create(rt, name) {
        Ok(mut file) => write_whole(&mut file, bytes, faults),
        Err(_) => {
            raise(faults);
            Err(Failed)
        }
    }
}
