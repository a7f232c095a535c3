ghost use Rattle.std.specs.Prelude.{◌≡◌, ℕ, ◌^◌, ◌<◌, ◌≤◌, List, length, Option, IfOk, OnOk, OnErr};
ghost use Rattle.std.specs.Prelude.{OnSome, IsErr};
ghost use Rattle.jr_shelf.specs.Counts.{Rose, served_after};
ghost use Rattle.jr_shelf.specs.Fetch.{OnFailed, OnTooLong, OnMemory, UnlessFailed};
ghost use Rattle.jr_shelf.specs.Fetch.{IsFailedOrMemory, missed_after};
ghost use Rattle.jr_shelf.specs.Limits.{file_limit};
ghost use Rattle.jr_shelf.specs.Shelf.{Files, Holds, HoldsTooMuch, LacksName, with_file};
ghost use Rattle.jr_shelf.specs.Shelf.{StoredInPart};

use crate::{Failed, FetchFault};
use std::alloc::Global;

/// The greatest length of a file, in bytes.
pub const MAX_FILE: u32 = 1_048_576;

/// A place that holds files by their names.
///
/// It counts its faults and the calls that it served. A count "rose" where it is greater after a
/// call than before it, or stands at the greatest u64.
pub trait Shelf {
    /// The files that it holds, where contracts know them. They are known after each call where
    /// they were before it.
    ghost holds: { Self → Option Files };

    /// The name of the last fetch that answered `Failed`, if there was one. It means something
    /// only where `holds` is known.
    ghost missed: { Self → Option (List ℕ) };

    /// How many faults there were, up to the greatest u64.
    ghost faults: { Self → ℕ };

    /// How many calls answered Ok, up to the greatest u64.
    ghost served: { Self → ℕ };

    /// The bytes that the name holds.
    ///
    /// `Failed` where the shelf failed or, on a shelf whose files are known, the name isn't
    /// there. `TooLong` where the name holds more than `MAX_FILE` bytes. `Memory` where there is no
    /// memory for the bytes, which leaves the shelf as it was.
    fn fetch(&mut self, alloc: Global, name: &str) -> Result<Vec<u8>, FetchFault>
        ensures ok { IfOk result (λ bytes. Holds (holds self.old) name.now bytes.items) }
        ensures within { IfOk result (λ bytes. length bytes.items ≤ file_limit) }
        ensures keeps { holds self.new ≡ holds self.old }

        // `Failed`: only in a call in which the count rose, and always where the name isn't there.
        ensures failed { OnFailed result (Rose (faults self.old) (faults self.new)) }
        ensures absent { LacksName (holds self.old) name.now → IsFailedOrMemory result }

        // `TooLong`: only where the name is known to hold too much, and then never Ok.
        ensures too_long { OnTooLong result
            (OnSome (holds self.old) (HoldsTooMuch (holds self.old) name.now)) }
        ensures not_served { HoldsTooMuch (holds self.old) name.now → IsErr result }

        // What the call leaves. The count of faults rises at no other answer than `Failed`.
        ensures faults { faults self.old ≤ faults self.new }
        ensures faults_stay { UnlessFailed result (faults self.new ≡ faults self.old) }
        ensures missed { OnSome (holds self.old)
            (missed self.new ≡ missed_after result name.now (missed self.old)) }
        ensures served { served self.new ≡ served_after result (served self.old) }
        ensures memory { OnMemory result (self.new ≡ self.old) };

    /// Puts the bytes at the name, in place of what it held. It takes no memory.
    ///
    /// `Failed` where the shelf failed: then the name holds a prefix of the bytes, or what it held
    /// before.
    fn store(&mut self, name: &str, bytes: &[u8]) -> Result<(), Failed>
        ensures ok { OnOk result (holds self.new ≡ with_file (holds self.old) name.now bytes.now) }
        ensures failed { OnErr result (Rose (faults self.old) (faults self.new)) }
        ensures in_part { OnErr result
            (StoredInPart (holds self.old) (holds self.new) name.now bytes.now) }
        ensures faults { faults self.old ≤ faults self.new }
        ensures faults_stay { OnOk result (faults self.new ≡ faults self.old) }
        ensures missed { OnSome (holds self.old) (missed self.new ≡ missed self.old) }
        ensures served { served self.new ≡ served_after result (served self.old) };

    ghost faults_fit: { (shelf : Self) → faults shelf < 2 ^ 64 };

    ghost served_fit: { (shelf : Self) → served shelf < 2 ^ 64 };
}
