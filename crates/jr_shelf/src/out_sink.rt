ghost use Rattle.std.specs.Prelude.{◌≡◌, ℕ, ◌^◌, ◌<◌, List, Option, None};

use crate::transfers::write_whole;
use crate::{Failed, Sink};
use std::io;

/// An output of the process: standard output of a runtime, or standard error as `rt.stderr()` has
/// it. Contracts don't know what it took.
#[derive(Drop)]
pub struct OutSink<R: Print + Drop> {
    rt: R,
    fault_count: u64,
    ghost fault_count_fits: { fault_count < 2 ^ 64 },
}

impl<R: Print + Drop> OutSink<R> {
    /// A sink over this output, with the count 0.
    pub fn new(rt: R) -> Self
        ensures faults { ⟦<OutSink<R> as Sink>⟧.faults result ≡ 0 }
    {
        OutSink { rt, fault_count: 0 }
    }
}

impl<R: Print + Drop> Sink for OutSink<R> {
    ghost use Rattle.jr_shelf.specs.Counts.{faults_after_write};

    ghost taken = { λ _. None };

    ghost faults = { λ sink. sink.fault_count };

    fn put(&mut self, bytes: &[u8]) -> Result<(), Failed>
        // The count rises by one, and only at a fault.
        ensures faults { self.new.fault_count ≡ faults_after_write result self.old.fault_count }
    {
        let mut faults = self.fault_count;
        let answer = write_whole(&mut io::writer(&self.rt), bytes, &mut faults);
        self.fault_count = faults;
        answer
    }

    ghost faults_fit = { λ sink. sink.fault_count_fits };
}
