ghost use Rattle.std.specs.Prelude.{◌≡◌, ℕ, ◌^◌, ◌<◌, List, Option, Some};
ghost use Rattle.jr_shelf.specs.Limits.{file_limit};

use crate::file_lists::find_file;
use crate::store_logs::{MAX_STORES, StoreLog};
use crate::{Failed, FetchFault, MAX_FILE, Memory, Shelf};
use std::alloc::Global;

/// Files in memory, with calls that fail at chosen numbers.
///
/// Its calls are numbered from 1, and the number stays at the greatest u32. A call fails exactly
/// where its number is among those that it was made with, where it fetches a name that isn't
/// there, where it stores more bytes than there is room for, the name's among them, or where
/// `MAX_STORES` stores answered Ok before it. A store that fails changes nothing.
#[derive(Drop)]
pub struct MemoryShelf {
    files: Vec<(String, Vec<u8>)>,
    log: StoreLog,
    missed_name: Option<String>,
    fault_count: u64,
    served_count: u64,
    last_number: u32,
    failing_numbers: Vec<u32>,
    ghost fault_count_fits: { fault_count < 2 ^ 64 },
    ghost served_count_fits: { served_count < 2 ^ 64 },
}

impl MemoryShelf {
    ghost use Rattle.std.specs.Prelude.{IfOk, IsTrue, length, ◌≤◌};
    ghost use Rattle.std.specs.Option.{option_copied};
    ghost use Rattle.std.specs.FinMap.{get, from_entries};
    ghost use Rattle.jr_shelf.specs.Counts.{next_number, fails_next};
    ghost use Rattle.jr_shelf.specs.Files.{names_differ, entries_of};
    ghost use Rattle.jr_shelf.specs.MemoryState.{new_state, store_fails, FetchMayGive};
    ghost use Rattle.jr_shelf.specs.MemoryShelf.{state_of};

    /// A shelf that holds these files, whose calls of the failing numbers fail, and that has room
    /// for stores of `room` bytes, names among them. The room is taken here.
    pub fn new(
        alloc: Global,
        files: Vec<(String, Vec<u8>)>,
        failing: Vec<u32>,
        room: u32,
    ) -> Result<MemoryShelf, Memory>
        requires { IsTrue (names_differ (entries_of files.items)) }
        ensures { IfOk result (λ shelf.
            state_of shelf ≡ new_state (from_entries (entries_of files.items)) failing.items room) }
    {
        let log = StoreLog::with_room(alloc, room)?;
        Ok(MemoryShelf {
            files,
            log,
            missed_name: None,
            fault_count: 0,
            served_count: 0,
            last_number: 0,
            failing_numbers: failing,
        })
    }

    /// The bytes that the name holds. This is no call of the shelf: it is not numbered.
    pub fn bytes_of(&self, name: &str) -> Option<&[u8]>
        ensures { option_copied result ≡ get (state_of self.now).held name.now }
    {
        match self.log.find(name) {
            Some(bytes) => Some(bytes),
            None => find_file(self.files.as_slice(), name),
        }
    }

    fn next_fails(&self) -> bool
        ensures { result ≡ fails_next (state_of self.now).failing (state_of self.now).number }
    {
        let next = self.last_number.saturating_add(1);
        self.failing_numbers.contains(&next)
    }

    fn answer(&self, alloc: Global, name: &str) -> Result<Vec<u8>, FetchFault>
        ensures may { FetchMayGive (state_of self.now) name.now result }
        ensures ok { IfOk result (λ bytes.
            get (state_of self.now).held name.now ≡ Some bytes.items) }
        ensures within { IfOk result (λ bytes. length bytes.items ≤ file_limit) }
    {
        if self.next_fails() {
            return Err(FetchFault::Failed);
        }
        match self.bytes_of(name) {
            None => Err(FetchFault::Failed),
            Some(bytes) if bytes.len() > MAX_FILE as usize => Err(FetchFault::TooLong),
            Some(bytes) => Ok(Vec::from_slice(alloc, bytes)?),
        }
    }

    fn will_not_store(&self, name: &str, bytes: &[u8]) -> bool
        ensures { result ≡ store_fails (state_of self.now) name.now bytes.now }
    {
        self.next_fails()
            || (self.log.room() as usize) < name.len() + bytes.len()
            || MAX_STORES as usize <= self.log.len()
    }
}

impl Shelf for MemoryShelf {
    ghost use Rattle.std.specs.Prelude.{IfOk, IsErr, is_err, length, ◌≤◌};
    ghost use Rattle.jr_shelf.specs.Fetch.{OnMemory};
    ghost use Rattle.jr_shelf.specs.Shelf.{Holds, HoldsTooMuch};
    ghost use Rattle.jr_shelf.specs.MemoryState.{store_fails, FetchMayGive, after_fetch};
    ghost use Rattle.jr_shelf.specs.MemoryState.{after_store};
    ghost use Rattle.jr_shelf.specs.MemoryShelf.{state_of};

    ghost holds = { λ shelf. Some (state_of shelf).held };

    ghost missed = { λ shelf. (state_of shelf).missed };

    ghost faults = { λ shelf. shelf.fault_count };

    ghost served = { λ shelf. shelf.served_count };

    fn fetch(&mut self, alloc: Global, name: &str) -> Result<Vec<u8>, FetchFault>
        ensures ok { IfOk result (λ bytes.
            Holds (Some (state_of self.old).held) name.now bytes.items) }
        ensures within { IfOk result (λ bytes. length bytes.items ≤ file_limit) }
        ensures not_served { HoldsTooMuch (Some (state_of self.old).held) name.now → IsErr result }
        ensures memory { OnMemory result (self.new ≡ self.old) }

        // Exactly which fetches fail, and all that a fetch leaves.
        ensures may { FetchMayGive (state_of self.old) name.now result }
        ensures after { state_of self.new ≡ after_fetch (state_of self.old) name.now result }
    {
        match self.answer(alloc, name) {
            Ok(bytes) => {
                self.last_number = self.last_number.saturating_add(1);
                self.served_count = self.served_count.saturating_add(1);
                Ok(bytes)
            }
            Err(FetchFault::Failed) => {
                let missed = String::from_str(alloc, name)?;
                self.last_number = self.last_number.saturating_add(1);
                self.fault_count = self.fault_count.saturating_add(1);
                self.missed_name = Some(missed);
                Err(FetchFault::Failed)
            }
            Err(FetchFault::TooLong) => {
                self.last_number = self.last_number.saturating_add(1);
                Err(FetchFault::TooLong)
            }
            Err(FetchFault::Memory) => Err(FetchFault::Memory),
        }
    }

    fn store(&mut self, name: &str, bytes: &[u8]) -> Result<(), Failed>
        // Exactly which stores fail, and all that a store leaves.
        ensures fails { is_err result ≡ store_fails (state_of self.old) name.now bytes.now }
        ensures after { state_of self.new
            ≡ after_store (state_of self.old) name.now bytes.now result }
    {
        let fails = self.will_not_store(name, bytes);
        self.last_number = self.last_number.saturating_add(1);
        if fails {
            self.fault_count = self.fault_count.saturating_add(1);
            return Err(Failed);
        }
        self.log.push(name, bytes);
        self.served_count = self.served_count.saturating_add(1);
        Ok(())
    }

    ghost faults_fit = { λ shelf. shelf.fault_count_fits };

    ghost served_fit = { λ shelf. shelf.served_count_fits };
}
